//! The leases of scanouts.

use super::rig::Row::{self, Act, Command, UpdateCursor};
use super::rig::{CREATE, Do, Due, OK, UNREF, run};
use std::test::Fail;

#[test]
fn scanouts_are_leased_to_one_client(rt: HostRuntime) -> Result<(), Fail> {
    static ROWS: [Row<'static>; 14] = [
        Act("drop before a take", 1, Do::Drop(0), Due::NotHeld),
        Act("take", 1, Do::Take(0), Due::Ok),
        Act("take again", 1, Do::Take(0), Due::HeldBy(1)),
        Act("take by another", 2, Do::Take(0), Due::HeldBy(1)),
        Act("take 1 by another", 2, Do::Take(1), Due::Ok),
        Act("take what another has", 1, Do::Take(1), Due::HeldBy(2)),
        Act("take scanout 2 of two", 1, Do::Take(2), Due::Unknown),
        Act(
            "take the last number",
            1,
            Do::Take(0xffff_ffff),
            Due::Unknown,
        ),
        Act("drop scanout 2 of two", 1, Do::Drop(2), Due::NotHeld),
        Act("drop what another has", 1, Do::Drop(1), Due::NotHeld),
        Act("drop", 1, Do::Drop(0), Due::Ok),
        Act("drop again", 1, Do::Drop(0), Due::NotHeld),
        Act("take by another, now free", 2, Do::Take(0), Due::Ok),
        Act("take what is another's now", 1, Do::Take(0), Due::HeldBy(2)),
    ];
    run(&rt, rt.alloc(), &ROWS)?;
    Ok(())
}

#[test]
fn a_lease_lasts_while_its_cursor_shows(rt: HostRuntime) -> Result<(), Fail> {
    static ROWS: [Row<'static>; 8] = [
        Act("take", 1, Do::Take(0), Due::Ok),
        Command("create 64 by 64", CREATE, &[1, 1, 64, 64], OK),
        UpdateCursor("show", &[0, 0, 0, 0, 1, 0, 0, 0], OK),
        Act("drop while it shows", 1, Do::Drop(0), Due::InUse(0)),
        Command("end its resource", UNREF, &[1, 0], OK),
        Act("drop while it shows still", 1, Do::Drop(0), Due::InUse(0)),
        UpdateCursor("hide", &[0, 0, 0, 0, 0, 0, 0, 0], OK),
        Act("drop", 1, Do::Drop(0), Due::Ok),
    ];
    run(&rt, rt.alloc(), &ROWS)?;
    Ok(())
}
