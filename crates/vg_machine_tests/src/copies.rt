//! Two copies that are lent at once, and what waits for them.

ghost use Rattle.std.specs.Prelude.{◌≡◌, [], OnOk};

use crate::rig::{Do, Rig, Row};
use std::alloc::Global;
use std::process::Abort;
use std::test::Fail;
use vg_chain::{ChainFault, Shape};
use vg_wire::kinds::{
    CTX_CREATE, CTX_DESTROY, GET_DISPLAY_INFO, RESOURCE_ATTACH_BACKING, RESOURCE_CREATE_2D,
    RESOURCE_DETACH_BACKING, RESOURCE_FLUSH, RESOURCE_UNREF, SET_SCANOUT, TRANSFER_TO_HOST_2D,
    UPDATE_CURSOR,
};

/// Buffers 1 to 5 have the guest pages 0 to 4. Bytes of format 1, which is B8G8R8A8, stand in a frame in the order in which they were stored.
static RESERVED: [Do; 9] = [
    Do::Enter,
    Do::Take(0),
    Do::Reserve(32),
    Do::Reserve(32),
    Do::Reserve(32),
    Do::Reserve(32),
    Do::Reserve(32),
    Do::Store(1, 1),
    Do::Store(2, 101),
];

/// Resources 1 and 2 of 4 by 2 pixels have buffers 1 and 2 for their backing, and context 257 is client 1's.
static MADE: [Row<'static>; 5] = [
    ("make 1", (0, 1), RESOURCE_CREATE_2D, 0, &[1, 1, 4, 2]),
    ("make 2", (0, 2), RESOURCE_CREATE_2D, 0, &[2, 1, 4, 2]),
    (
        "attach 1",
        (0, 3),
        RESOURCE_ATTACH_BACKING,
        0,
        &[1, 1, 0x100000, 0, 32, 0],
    ),
    (
        "attach 2",
        (0, 4),
        RESOURCE_ATTACH_BACKING,
        0,
        &[2, 1, 0x101000, 0, 32, 0],
    ),
    ("context", (0, 5), CTX_CREATE, 257, &[0; 18]),
];

/// The backing of resource 2 becomes a half of page 1 and a half of page 4.
static HALVES: [Row<'static>; 2] = [
    ("detach 2", (0, 6), RESOURCE_DETACH_BACKING, 0, &[2, 0]),
    (
        "attach halves",
        (0, 7),
        RESOURCE_ATTACH_BACKING,
        0,
        &[2, 2, 0x101000, 0, 16, 0, 0x104000, 0, 16, 0],
    ),
];

/// Pages 3 and 4 are free again: no resource has the key 4 or 5.
static FREED: [Do; 4] = [Do::Release(4), Do::Free(4), Do::Release(5), Do::Free(5)];

/// Each transfer fills all of its resource (VIRTIO 1.2, 5.7.6.8).
static TRANSFERS: [Row<'static>; 2] = [
    (
        "send 1",
        (1, 1),
        TRANSFER_TO_HOST_2D,
        257,
        &[0, 0, 4, 2, 0, 0, 1, 0],
    ),
    (
        "send 2",
        (2, 1),
        TRANSFER_TO_HOST_2D,
        257,
        &[0, 0, 4, 2, 0, 0, 2, 0],
    ),
];

/// Each resource is shown on scanout 0 and flushed.
static SHOWN: [Row<'static>; 4] = [
    ("show 1", (0, 6), SET_SCANOUT, 0, &[0, 0, 4, 2, 0, 1]),
    ("flush 1", (0, 7), RESOURCE_FLUSH, 0, &[0, 0, 4, 2, 1, 0]),
    ("show 2", (0, 8), SET_SCANOUT, 0, &[0, 0, 4, 2, 0, 2]),
    ("flush 2", (0, 9), RESOURCE_FLUSH, 0, &[0, 0, 4, 2, 2, 0]),
];

/// What meets a copy of resource 1, or context 257.
static MEETS: [Row<'static>; 7] = [
    ("end 1", (0, 8), RESOURCE_UNREF, 0, &[1, 0]),
    ("flush 1", (0, 8), RESOURCE_FLUSH, 0, &[0, 0, 4, 2, 1, 0]),
    (
        "send 1 again",
        (3, 1),
        TRANSFER_TO_HOST_2D,
        257,
        &[0, 0, 4, 2, 0, 0, 1, 0],
    ),
    (
        "attach 1 again",
        (0, 8),
        RESOURCE_ATTACH_BACKING,
        0,
        &[1, 1, 0x100000, 0, 32, 0],
    ),
    ("detach 1", (0, 8), RESOURCE_DETACH_BACKING, 0, &[1, 0]),
    (
        "cursor of 1",
        (65, 1),
        UPDATE_CURSOR,
        0,
        &[0, 0, 0, 0, 1, 0, 0, 0],
    ),
    ("end the context", (0, 8), CTX_DESTROY, 257, &[]),
];

/// What meets none: there is no resource 3, and no context 258.
static PASSES: [Row<'static>; 8] = [
    ("end 3", (0, 8), RESOURCE_UNREF, 0, &[3, 0]),
    ("flush 3", (0, 8), RESOURCE_FLUSH, 0, &[0, 0, 4, 2, 3, 0]),
    (
        "send 3",
        (3, 1),
        TRANSFER_TO_HOST_2D,
        257,
        &[0, 0, 4, 2, 0, 0, 3, 0],
    ),
    (
        "attach 3",
        (0, 8),
        RESOURCE_ATTACH_BACKING,
        0,
        &[3, 1, 0x102000, 0, 32, 0],
    ),
    ("detach 3", (0, 8), RESOURCE_DETACH_BACKING, 0, &[3, 0]),
    (
        "cursor of 3",
        (65, 1),
        UPDATE_CURSOR,
        0,
        &[0, 0, 0, 0, 3, 0, 0, 0],
    ),
    ("end another context", (0, 8), CTX_DESTROY, 258, &[]),
    ("displays", (0, 8), GET_DISPLAY_INFO, 0, &[]),
];

/// Acts that meet a copy. Two pages for a new buffer would be 3 and 4, of which page 4 is lent.
static ACTS_MEET: [Do; 5] = [
    Do::Store(1, 0),
    Do::Load(1),
    Do::Store(2, 0),
    Do::Load(2),
    Do::Reserve(4_097),
];

/// Acts that meet none. One page for a new buffer would be page 3, and of 16 pages 13 are free.
static ACTS_PASS: [Do; 5] = [
    Do::Store(3, 0),
    Do::Load(3),
    Do::Reserve(4_096),
    Do::Reserve(65_536),
    Do::Take(0),
];

/// Two transfers can begin.
fn prepare(rt: &impl Abort, rig: &mut Rig) -> Result<(), Fail>
    requires lent { rig.old.display.lent ≡ [] }
    ensures lent { OnOk result (rig.new.display.lent ≡ []) }
{
    rig.act_all(rt, &RESERVED)?;
    rig.run_all(rt, &MADE)
}

/// Each of these requests waits or not, as it is due.
fn all_wait(rt: &impl Abort, rig: &Rig, rows: &[Row<'_>], due: bool) -> Result<(), Fail> {
    for row in rows {
        assert_eq!(rt; rig.waits(row, Shape::Plain)?, due, "{}", row.0);
    }
    Ok(())
}

/// The same of acts, by their places.
fn acts_wait(rt: &impl Abort, rig: &Rig, acts: &[Do], due: bool) -> Result<(), Fail> {
    for (place, what) in acts.iter().enumerate() {
        assert_eq!(rt; rig.act_waits(*what)?, due, "{place}");
    }
    Ok(())
}

/// What meets a copy waits while there are copies, and nothing else.
fn waiting(rt: &impl Abort, rig: &Rig, lent: bool) -> Result<(), Fail> {
    all_wait(rt, rig, &MEETS, lent)?;
    all_wait(rt, rig, &PASSES, false)?;
    acts_wait(rt, rig, &ACTS_MEET, lent)?;
    acts_wait(rt, rig, &ACTS_PASS, false)?;
    // What isn't run stands behind nothing.
    let bad = Shape::Bad {
        fault: ChainFault::Loop,
    };
    assert!(rt; !rig.waits(&MEETS[0], bad)?);
    Ok(())
}

/// Two copies are lent at once, and each resource shows what its own buffer had.
fn draws(rt: &impl Abort, rig: &mut Rig) -> Result<(), Fail>
    requires lent { rig.old.display.lent ≡ [] }
{
    prepare(rt, rig)?;
    let (first, second) = rig.lend_both(rt, &TRANSFERS[0], &TRANSFERS[1])?;
    rig.end_both(rt, first, second);
    rig.run_all(rt, &SHOWN)?;
    rig.shows_all(rt, &[1, 101])
}

/// What meets a copy waits while two are lent.
fn waits_while_lent(rt: &impl Abort, rig: &mut Rig) -> Result<(), Fail>
    requires lent { rig.old.display.lent ≡ [] }
{
    let (first, second) = rig.lend_both(rt, &TRANSFERS[0], &TRANSFERS[1])?;
    waiting(rt, rig, true)?;
    rig.end_both(rt, first, second);
    waiting(rt, rig, false)
}

/// The same where a copy has a page that no buffer has any more.
fn waits(rt: &impl Abort, rig: &mut Rig) -> Result<(), Fail>
    requires lent { rig.old.display.lent ≡ [] }
{
    prepare(rt, rig)?;
    rig.run_all(rt, &HALVES)?;
    rig.act_all(rt, &FREED)?;
    waiting(rt, rig, false)?;
    waits_while_lent(rt, rig)
}

/// What is tried on a new display.
#[derive(Clone, Copy)]
enum Trial {
    Draws,
    Waits,
}

fn tried(rt: &impl Abort, alloc: Global, trial: Trial) -> Result<(), Fail> {
    let mut rig = Rig::new(alloc)?;
    match trial {
        Trial::Draws => draws(rt, &mut rig),
        Trial::Waits => waits(rt, &mut rig),
    }
}

#[test]
fn two_copies_are_under_way_at_once(rt: HostRuntime) -> Result<(), Fail> {
    tried(&rt, rt.alloc(), Trial::Draws)
}

#[test]
fn what_meets_a_copy_waits(rt: HostRuntime) -> Result<(), Fail> {
    tried(&rt, rt.alloc(), Trial::Waits)
}
