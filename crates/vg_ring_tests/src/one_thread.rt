//! Cargoes go across a ring and come back, both ends in one thread.

ghost use Rattle.std.specs.Prelude.{◌≡◌};
ghost use Rattle.vg_chain.specs.Made.{IsCount};
ghost use Rattle.vg_wire.specs.declared.request.Queue.TheVariants.{Control};

use std::alloc::{AllocError, Global};
use std::marker::Brand;
use std::process::Abort;
use std::test::Fail;
use vg_cargo::{Command, Tag};
use vg_chain::{Chain, ChainFault, Segment, Shape};
use vg_ring::{DeviceEnd, DriverEnd, Fetched, Made, Naming, Reaped, Ring};
use vg_ring_uses::{Ticket, answer_turned, answered, ticketed};
use vg_wire::Queue;

/// The bytes of each request, and the room for its response.
const REQUEST: [u8; 3] = [1, 2, 3];

const ROOM: u32 = 4;

/// What the walk of a cargo's chain comes to: segments of these lengths from the request's first byte on and one of the room, or
/// a fault.
#[derive(Clone, Copy)]
enum Way {
    Pieces(&'static [u32]),
    Fault(ChainFault),
}

/// Whether these are segments of these lengths, one behind another from an address on.
fn are_segments(segments: &[Segment], addr: u64, lens: &[u32]) -> bool {
    let mut next = addr;
    for (segment, len) in segments.iter().zip(lens) {
        if segment.addr != next || segment.len != *len {
            return false;
        }
        next = next.wrapping_add(u64::from(*len));
    }
    segments.len() == lens.len()
}

/// Whether a walk from this head came to what it should.
fn is_walk(walked: &Result<Chain, ChainFault>, head: u16, way: Way) -> bool {
    let base = 0x1_0000_0000_0000 + 65536 * u64::from(head);
    match (walked, way) {
        (Ok(chain), Way::Pieces(lens)) => {
            are_segments(chain.readable.as_slice(), base, lens)
                && are_segments(chain.writable.as_slice(), base + 49152, &[ROOM])
        }
        (Err(fault), Way::Fault(other)) => *fault == other,
        _ => false,
    }
}

/// Whether a request of this shape was read.
fn is_read(command: &Command, shape: Shape) -> bool {
    command.queue == Queue::Control
        && command.bytes.as_slice() == REQUEST.as_slice()
        && command.room == ROOM
        && command.shape == shape
}

/// The device's part of a round: a right to the cargo is lent, its chain walked and read, and it goes back with two bytes, or with
/// none where its chain is bad.
fn answer<N: Naming>(
    alloc: Global,
    device: &mut DeviceEnd<Ticket, N>,
    shape: Shape,
    way: Way,
) -> Result<bool, AllocError> {
    let Some(fetched) = device.fetch() else {
        return Ok(false);
    };
    let Fetched { head, cargo } = fetched;
    let mut right = device.lend(head);
    let walked = device.chain(alloc, &mut right, &cargo)?;
    let tagged = right.tag() == cargo.tag() && right.head() == head && right.walked();
    device.take_in(right);
    let Ok(opening) = cargo.open(alloc, &walked) else {
        return Err(AllocError);
    };
    let good = is_walk(&walked, head, way) && is_read(&opening.command, shape);
    let (cargo, len) = answered(opening.parcel, opening.pass, &walked, &[7, 8]);
    device.complete(head, len, cargo);
    Ok(tagged && good)
}

/// A cargo of this shape goes across.
fn ask<N: Naming>(
    alloc: Global,
    driver: &mut DriverEnd<Ticket, N>,
    shape: Shape,
) -> Result<bool, AllocError>
    requires count { IsCount shape }
    requires queue { driver.old.queue ≡ Control }
    ensures queue { driver.new.queue ≡ Control }
{
    if driver.published() > 1000000 || !driver.room(1) || !driver.room(shape.needed(3, ROOM)) {
        return Ok(false);
    }
    let tag = Tag {
        lane: 3,
        ordinal: driver.next_ordinal(3),
    };
    let request = REQUEST.to_vec(alloc)?;
    let head = driver.next_head();
    let cargo = ticketed(alloc, Queue::Control, head, tag, shape, request, ROOM)?;
    Ok(driver.publish(shape, cargo) == head)
}

/// The shape of what comes back, and what is in its room.
fn back<N: Naming>(driver: &mut DriverEnd<Ticket, N>) -> Option<(Shape, Vec<u8>)>
    ensures { driver.new.queue ≡ driver.old.queue }
{
    let Reaped { len, cargo, .. } = driver.reap()?;
    let (parcel, _ticket) = cargo.apart();
    Some(parcel.into_response(len))
}

/// So many cargoes of this shape go across and back over a ring.
fn carry<N: Naming>(
    alloc: Global,
    made: Made<Ticket>,
    shape: Shape,
    way: Way,
    rounds: u16,
) -> Result<bool, AllocError>
    requires ring { made.table ≡ N.ring }
    requires count { IsCount shape }
    requires queue { made.queue ≡ Control }
{
    let response: &[u8] = match way {
        Way::Pieces(_) => &[7, 8],
        Way::Fault(_) => &[],
    };
    let (mut driver, mut device) = made.named::<N>();
    let mut good = true;
    for _turn in 0..rounds {
        let asked = ask(alloc, &mut driver, shape)?;
        let answered = answer(alloc, &mut device, shape, way)?;
        let back = match back(&mut driver) {
            Some((other, bytes)) => other == shape && bytes.as_slice() == response,
            None => false,
        };
        good = good && asked && answered && back;
    }
    Ok(good && driver.reaped() == u64::from(rounds) && device.completed() == u64::from(rounds))
}

#[test]
fn cargoes_go_across_and_back(rt: HostRuntime) -> Result<(), Fail> {
    let small = Ring::make::<Ticket>(rt.alloc(), Queue::Control, 2)?;
    assert!(rt; carry::<Brand>(rt.alloc(), small, Shape::Plain, Way::Pieces(&[3]), 20)?);
    Ok(())
}

#[test]
fn shapes_go_across_and_back(rt: HostRuntime) -> Result<(), Fail> {
    let ring = Ring::make::<Ticket>(rt.alloc(), Queue::Control, 16)?;
    let way = Way::Pieces(&[1, 1, 1]);
    assert!(rt; carry::<Brand>(rt.alloc(), ring, Shape::Pieces { n: 3 }, way, 20)?);
    Ok(())
}

#[test]
fn a_bad_chain_is_read_as_its_fault(rt: HostRuntime) -> Result<(), Fail> {
    let ring = Ring::make::<Ticket>(rt.alloc(), Queue::Control, 16)?;
    let fault = ChainFault::Loop;
    assert!(rt; carry::<Brand>(rt.alloc(), ring, Shape::Bad { fault }, Way::Fault(fault), 2)?);
    Ok(())
}

/// The ordinal of the cargo that comes back next.
fn ordinal_back<N: Naming>(driver: &mut DriverEnd<Ticket, N>) -> Option<u64> {
    let reaped = driver.reap()?;
    Some(reaped.cargo.tag().ordinal)
}

fn turns<N: Naming, R: Abort>(rt: &R, alloc: Global, made: Made<Ticket>) -> Result<(), Fail>
    requires ring { made.table ≡ N.ring }
    requires queue { made.queue ≡ Control }
{
    let (mut driver, mut device) = made.named::<N>();
    assert!(rt; ask(alloc, &mut driver, Shape::Plain)?);
    assert!(rt; ask(alloc, &mut driver, Shape::Plain)?);
    assert!(rt; answer_turned(&mut device));
    assert_eq!(rt; ordinal_back(&mut driver), Some(2));
    assert_eq!(rt; ordinal_back(&mut driver), Some(1));
    assert_eq!(rt; ordinal_back(&mut driver), None);
    Ok(())
}

#[test]
fn the_second_cargo_comes_back_first(rt: HostRuntime) -> Result<(), Fail> {
    let ring = Ring::make::<Ticket>(rt.alloc(), Queue::Control, 4)?;
    turns::<Brand, _>(&rt, rt.alloc(), ring)
}
