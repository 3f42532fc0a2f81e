//! When a kick is called for, and the two halves of a bell in one thread.

ghost use Rattle.std.specs.Prelude.{◌≡◌};

use std::process::Abort;
use std::test::Fail;
use vg_notify::{Bell, Ringer, Sleeper, need_event};

/// An event, the new index and the old one, and whether a kick is called for.
static NEEDS: [(u16, u16, u16, bool); 4] = [
    (65535, 0, 65535, true),
    (5, 5, 4, false),
    (5, 6, 5, true),
    (4, 6, 5, false),
];

#[test]
fn a_kick_is_called_for_where_the_index_passes_the_event(rt: HostRuntime) {
    for (event, new, old, wanted) in NEEDS {
        assert!(rt;
            need_event(event, new, old) == wanted,
            "{event} {new} {old}"
        );
    }
}

/// What a sleeper says of a kick, where it is asleep.
fn called(sleeper: &mut Sleeper) -> Option<bool> {
    if sleeper.asleep() {
        Some(sleeper.called())
    } else {
        None
    }
}

/// What the halves of a bell answer one after another.
fn answers(ringer: &mut Ringer, sleeper: &mut Sleeper) -> [Option<bool>; 7]
    requires { ringer.old.count ≡ 0 }
{
    [
        Some(sleeper.arm(0)),
        Some(ringer.published(3)),
        called(sleeper),
        Some(sleeper.arm(0)),
        Some(sleeper.arm(3)),
        Some(ringer.published(3)),
        called(sleeper),
    ]
}

#[test]
fn a_sleeper_is_kicked_once_more_is_published(rt: HostRuntime) -> Result<(), Fail> {
    let (mut ringer, mut sleeper) = Bell::make(rt.alloc())?;
    let wanted = [true, true, true, false, true, false, false].map(Some);
    assert!(rt; answers(&mut ringer, &mut sleeper) == wanted);
    Ok(())
}
