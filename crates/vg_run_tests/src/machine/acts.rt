//! When the acts on buffers of guest pages are refused.

use super::rig::Row::{self, Act, Command};
use super::rig::{CREATE, Do, Due, OK, UNREF, run};
use std::test::Fail;

#[test]
fn store_and_load_are_refused(rt: HostRuntime) -> Result<(), Fail> {
    static ROWS: [Row<'static>; 16] = [
        Act(
            "store before any",
            1,
            Do::Store(1, 0, &[1], 1),
            Due::Unknown,
        ),
        Act("load before any", 1, Do::Load(1, 0, 1), Due::Unknown),
        Act("reserve", 1, Do::Reserve(16), Due::Key(1, &[0])),
        Act(
            "store by another",
            2,
            Do::Store(1, 0, &[1], 1),
            Due::NotHeld,
        ),
        Act(
            "store by another past the end",
            2,
            Do::Store(1, 16, &[1], 1),
            Due::NotHeld,
        ),
        Act("load by another", 2, Do::Load(1, 0, 1), Due::NotHeld),
        Act(
            "load by another past the end",
            2,
            Do::Load(1, 0, 17),
            Due::NotHeld,
        ),
        Act("store at key 0", 1, Do::Store(0, 0, &[1], 1), Due::Unknown),
        Act(
            "load of key 2, past an end",
            1,
            Do::Load(2, 0, 17),
            Due::Unknown,
        ),
        Act(
            "nothing was stored",
            1,
            Do::Load(1, 0, 2),
            Due::Bytes(&[0, 0]),
        ),
        Act("release", 1, Do::Release(1), Due::Last),
        Act("store behind it", 1, Do::Store(1, 0, &[1], 1), Due::NotHeld),
        Act("load behind it", 1, Do::Load(1, 0, 1), Due::NotHeld),
        Act("free", 1, Do::Free(1), Due::Ok),
        Act(
            "store behind that",
            1,
            Do::Store(1, 0, &[1], 1),
            Due::Unknown,
        ),
        Act("load behind that", 1, Do::Load(1, 0, 1), Due::Unknown),
    ];
    run(&rt, rt.alloc(), &ROWS)?;
    Ok(())
}

#[test]
fn release_and_free_are_refused(rt: HostRuntime) -> Result<(), Fail> {
    static ROWS: [Row<'static>; 20] = [
        Command("a resource 1 without a buffer", CREATE, &[1, 1, 4, 2], OK),
        Act("release before any", 1, Do::Release(1), Due::Unknown),
        Act("free before any", 1, Do::Free(1), Due::Unknown),
        Act("reserve", 1, Do::Reserve(16), Due::Key(1, &[0])),
        Act("fill", 1, Do::Store(1, 0, &[5], 16), Due::Ok),
        Act("release by another", 2, Do::Release(1), Due::NotHeld),
        Act("free by another", 2, Do::Free(1), Due::NotHeld),
        Act("free before a release", 1, Do::Free(1), Due::NotHeld),
        Act("release", 1, Do::Release(1), Due::Last),
        Act("release again", 1, Do::Release(1), Due::NotHeld),
        Act("free with a resource", 1, Do::Free(1), Due::Live),
        Act(
            "free by another, with a resource",
            2,
            Do::Free(1),
            Due::NotHeld,
        ),
        Act("its page isn't free", 2, Do::Reserve(16), Due::Key(2, &[1])),
        Command("another resource", CREATE, &[2, 1, 4, 2], OK),
        Command("the end of resource 1", UNREF, &[1, 0], OK),
        Act("free", 1, Do::Free(1), Due::Ok),
        Act("free again", 1, Do::Free(1), Due::Unknown),
        Act("release what is free", 1, Do::Release(1), Due::Unknown),
        Act(
            "its page, which is zeroed",
            1,
            Do::Reserve(16),
            Due::Key(3, &[0]),
        ),
        Act("all of it", 1, Do::Load(3, 0, 16), Due::Bytes(&[0; 16])),
    ];
    run(&rt, rt.alloc(), &ROWS)?;
    Ok(())
}
