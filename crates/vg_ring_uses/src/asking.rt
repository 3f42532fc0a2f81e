//! The driver's thread: it publishes cargoes of one lane, and takes them back.

ghost use Rattle.std.specs.Prelude.{◌≡◌, [], IfOk, length};
ghost use Rattle.vg_chain.specs.Made.{IsCount};
ghost use Rattle.vg_cargo.specs.Cargo.{IsLane};
ghost use Rattle.vg_ring_uses.specs.Carried.{HasAsked, IsGood, MayAsk, TakesBack};

use crate::ticket::{Ticket, ticketed};
use crossbeam_utils::Backoff;
use std::alloc::{AllocError, Global};
use std::marker::{Model, Sync};
use std::sync::Wait;
use std::thread::Threads;
use vg_cargo::Tag;
use vg_chain::Shape;
use vg_jobs::Job;
use vg_ring::{DriverEnd, Naming, Reaped};
use vg_wire::Queue;

/// How many bytes there are of an ordinal, and how much room for them.
const ROOM: u32 = 8;

/// The shapes of cargoes, one after another.
#[derive(Clone, Copy)]
pub enum Mix {
    /// Plain, two descriptors each.
    Plain,
    /// From one descriptor to nine, by turns.
    OneToNine,
}

/// The lane of the cargoes, how many they are, and their shapes.
#[derive(Clone, Copy)]
pub struct Order {
    pub queue: Queue,
    pub lane: u32,
    pub count: u32,
    pub mix: Mix,
}

/// The shape of the cargo behind so many.
fn shape_at(mix: Mix, before: u64) -> Shape
    ensures count { IsCount result }
    ensures good { IsGood result }
{
    match mix {
        Mix::Plain => Shape::Plain,
        Mix::OneToNine => match before % 9 {
            0 => Shape::Indirect,
            1 => Shape::Plain,
            n => Shape::Pieces { n: n as u8 },
        },
    }
}

/// Publishes the lane's next cargo, if there is one more and room for it.
pub(crate) fn ask_next<N: Naming>(
    alloc: Global,
    driver: &mut DriverEnd<Ticket, N>,
    order: Order,
) -> Result<bool, AllocError>
    requires queue { driver.old.queue ≡ order.queue }
    requires lane { IsLane order.queue order.lane }
    ensures asked { IfOk result (λ asked. MayAsk order.queue order.lane order.count driver.old driver.new asked) }
    ensures queue { driver.new.queue ≡ driver.old.queue }
{
    let asked = driver.published();
    if asked >= u64::from(order.count) {
        return Ok(false);
    }
    let shape = shape_at(order.mix, asked);
    if !driver.room(1) || !driver.room(shape.needed(8, ROOM)) {
        return Ok(false);
    }
    let tag = Tag {
        lane: order.lane,
        ordinal: driver.next_ordinal(order.lane),
    };
    let request = tag.ordinal.to_le_bytes().to_vec(alloc)?;
    let head = driver.next_head();
    let cargo = ticketed(alloc, order.queue, head, tag, shape, request, ROOM)?;
    driver.publish(shape, cargo);
    Ok(true)
}

/// Whether a cargo came back under this ordinal, with the ordinal's bytes as its response.
fn is_right(reaped: &Reaped<Ticket>, ordinal: u64) -> bool
    requires { length reaped.now.cargo.parcel.response ≡ reaped.now.len }
{
    let cargo = &reaped.cargo;
    cargo.tag().ordinal == ordinal && cargo.response(reaped.len) == ordinal.to_le_bytes().as_slice()
}

/// Takes one cargo back, and tells whether it is the next one. None where none came back.
fn take_back<N: Naming>(driver: &mut DriverEnd<Ticket, N>) -> Option<bool>
    ensures { TakesBack driver.old driver.new }
{
    let reaped = driver.reap()?;
    Some(is_right(&reaped, driver.reaped()))
}

/// Publishes all cargoes of the order, and waits until they are back. It gives how many of them came back right.
pub fn ask<N: Naming, R: Wait>(
    rt: &R,
    alloc: Global,
    driver: DriverEnd<Ticket, N>,
    order: Order,
) -> Result<(DriverEnd<Ticket, N>, u64), AllocError>
    requires new { (driver.queue ≡ order.queue) × (driver.published ≡ []) × (driver.reaped ≡ []) }
    requires lane { IsLane order.queue order.lane }
    ensures asked { IfOk result (λ r. HasAsked order.queue order.lane order.count r.0) }
    ensures back { IfOk result (λ r. length r.0.reaped ≡ order.count) }
{
    let mut driver = driver;
    let mut right = 0u64;
    let backoff = Backoff::new();
    for _turn in rt.forever() {
        if driver.reaped() == u64::from(order.count) {
            return Ok((driver, right));
        }
        let asked = ask_next(alloc, &mut driver, order)?;
        let back = take_back(&mut driver);
        right = right.wrapping_add(u64::from(back == Some(true)));
        pause(&backoff, asked || back.is_some());
    }
    unreachable!()
}

/// Waits a little, unless there was something to do.
pub(crate) fn pause(backoff: &Backoff, busy: bool) {
    if busy {
        backoff.reset();
    } else {
        backoff.snooze();
    }
}

/// A driver's end that is to ask for this order, on a thread.
#[derive(Drop)]
pub(crate) struct Asking<N: Naming> {
    pub alloc: Global,
    pub driver: DriverEnd<Ticket, N>,
    pub order: Order,
}

impl<N: Naming> Job<Result<(DriverEnd<Ticket, N>, u64), AllocError>> for Asking<N> {
    ghost use Rattle.std.specs.Prelude.{◌≡◌, [], IfOk, length};
    ghost use Rattle.vg_cargo.specs.Cargo.{IsLane};
    ghost use Rattle.vg_ring_uses.specs.Carried.{HasAsked};

    ghost is_ready = { λ job. ((job.driver.queue ≡ job.order.queue) × (job.driver.published ≡ []) × (job.driver.reaped ≡ [])) × IsLane job.order.queue job.order.lane };

    ghost gives = { λ job result. IfOk result (λ r. HasAsked job.order.queue job.order.lane job.order.count r.0 × (length r.0.reaped ≡ job.order.count)) };

    fn run<R: Threads + Wait + Sync>(
        self,
        rt: &R,
    ) -> Result<(DriverEnd<Ticket, N>, u64), AllocError> {
        ask(rt, self.alloc, self.driver, self.order)
    }
}
