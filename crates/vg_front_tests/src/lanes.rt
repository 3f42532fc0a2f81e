//! Commands of several lanes, on both queues.

ghost use Rattle.std.specs.Prelude.{◌≡◌};
ghost use Rattle.vg_wire.specs.declared.request.Queue.TheVariants.{Control, Cursor};

use crate::rig::{Token, ask, back, give, new_front, take};
use std::alloc::{AllocError, Global};
use std::marker::Brand;
use std::process::Abort;
use vg_chain::Shape;
use vg_front::Front;
use vg_notify::Bell;
use vg_ring::{ControlOf, CursorOf, DriverEnd, Made, Ring, Rings};
use vg_ring_uses::Ticket;
use vg_wire::Queue;

/// Two commands of lane 3, one of lane 5 and one of the cursor queue.
fn ask_four<N: Rings>(
    alloc: Global,
    driver: &mut DriverEnd<Ticket, ControlOf<N>>,
    pointer: &mut DriverEnd<Ticket, CursorOf<N>>,
) -> Result<bool, AllocError>
    requires queues { (driver.old.queue ≡ Control) × (pointer.old.queue ≡ Cursor) }
{
    let one = ask(alloc, driver, Queue::Control, 3, Shape::Plain)?;
    let two = ask(alloc, driver, Queue::Control, 3, Shape::Indirect)?;
    let other = ask(alloc, driver, Queue::Control, 5, Shape::Mixed)?;
    let last = ask(alloc, pointer, Queue::Cursor, 65, Shape::Plain)?;
    Ok(one && two && other && last)
}

/// One of each lane is out at a time, and they may be given back in any order.
fn run_three<N: Rings, R: Abort>(
    rt: &R,
    alloc: Global,
    front: &mut Front<Ticket, Token, N>,
) -> Result<(), AllocError>
    ensures { front.new.control.halted ≡ front.old.control.halted }
{
    let first = take(alloc, front)?.expect(rt, "lane 3 has a command");
    let second = take(alloc, front)?.expect(rt, "lane 5 has a command");
    let third = take(alloc, front)?.expect(rt, "the cursor queue has a command");
    assert_eq!(rt; first.tag(), (3, 1));
    assert_eq!(rt; second.tag(), (5, 1));
    assert_eq!(rt; third.tag(), (65, 1));
    assert!(rt; take(alloc, front)?.is_none());
    assert!(rt; front.busy());
    give(front, second);
    give(front, first);
    give(front, third);
    Ok(())
}

/// The next command is given back without having been run.
fn halt_one<N: Rings, R: Abort>(
    rt: &R,
    alloc: Global,
    front: &mut Front<Ticket, Token, N>,
) -> Result<(), AllocError> {
    front.halt();
    let held = take(alloc, front)?.expect(rt, "lane 3 has another");
    assert_eq!(rt; held.tag(), (3, 2));
    give(front, held);
    Ok(())
}

/// What the tokens have run at the end.
fn end<N: Rings, R: Abort>(rt: &R, front: Front<Ticket, Token, N>) {
    assert!(rt; !front.busy());
    let (tokens, _control, _cursor) = front.close();
    let counts = [
        tokens[3].count,
        tokens[4].count,
        tokens[5].count,
        tokens[65].count,
    ];
    assert_eq!(rt; counts, [1, 0, 1, 1]);
}

fn run_lanes<N: Rings, R: Abort>(
    rt: &R,
    alloc: Global,
    control: Made<Ticket>,
    cursor: Made<Ticket>,
) -> Result<(), AllocError>
    requires rings { (control.table ≡ N.control) × (cursor.table ≡ N.cursor) }
    requires queues { (control.queue ≡ Control) × (cursor.queue ≡ Cursor) }
{
    let (mut driver, device) = control.named::<ControlOf<N>>();
    let (mut pointer, other) = cursor.named::<CursorOf<N>>();
    let (_control_ringer, control_bell) = Bell::make(alloc)?;
    let (_cursor_ringer, cursor_bell) = Bell::make(alloc)?;
    let mut front = new_front(alloc, device, other, control_bell, cursor_bell)?;
    assert!(rt; ask_four(alloc, &mut driver, &mut pointer)?);
    run_three(rt, alloc, &mut front)?;
    assert_eq!(rt; back(&mut driver), Some((5, 1, Some(5))));
    assert_eq!(rt; back(&mut driver), Some((3, 1, Some(3))));
    assert_eq!(rt; back(&mut pointer), Some((65, 1, Some(65))));
    halt_one(rt, alloc, &mut front)?;
    assert_eq!(rt; back(&mut driver), Some((3, 2, None)));
    end(rt, front);
    Ok(())
}

#[test]
fn lanes_run_one_command_at_a_time(rt: HostRuntime) -> Result<(), AllocError> {
    let control = Ring::make::<Ticket>(rt.alloc(), Queue::Control, 16)?;
    let cursor = Ring::make::<Ticket>(rt.alloc(), Queue::Cursor, 4)?;
    run_lanes::<Brand, _>(&rt, rt.alloc(), control, cursor)
}
