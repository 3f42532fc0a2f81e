//! A lane's desk: passes that wait for the lane, and those that came back, under a lock.

ghost use Rattle.std.specs.Prelude.{true, ◌≡◌, ◌+◌, ◌-◌, ◌^◌, ◌<◌, ◌≤◌, [], IfSome, MatchResult};
ghost use Rattle.vg_book_uses.specs.Desks.{IsOf, HasAsked, HasServed, HandsIn, IsLaneKnown, Settles, Works};

use crate::counter::{Counter, Request};
use crate::crossing::{Answered, Came, Sent};
use crossbeam_utils::Backoff;
use std::alloc::{AllocError, Global};
use std::collections::VecDeque;
use std::sync::atomic::{AtomicBool, Ordering};
use std::sync::{Mutex, Wait};
use vg_book::{Book, ClientToken, LaneToken, Naming};
use vg_history::Machine;

/// What lies between the clients and the worker of a lane.
#[derive(Drop)]
pub struct Desk<B: Naming> {
    /// The last ordinal that was drawn.
    drawn: u64,
    waiting: VecDeque<Sent<B>>,
    back: Vec<Came<B>>,
    /// Whether passes go back unrun.
    halted: bool,
}

impl<B: Naming> Desk<B> {
    pub fn new(alloc: Global) -> Desk<B> {
        Desk {
            drawn: 0,
            waiting: VecDeque::new(alloc),
            back: Vec::new(alloc),
            halted: false,
        }
    }

    /// From now on passes go back unrun.
    pub fn halt(&mut self) {
        self.halted = true;
    }

    /// A request under the lane's next ordinal is made a pass, which waits for the lane. It gives the client's number for it.
    fn hand_in(
        &mut self,
        book: &Book<Counter, B>,
        client: &mut ClientToken<Counter, B>,
        lane: u32,
        n: u64,
    ) -> Result<u64, AllocError>
        requires allowed { n ≤ client.old.account.holds }
        requires last { client.old.account.used < 2 ^ 63 - 1 }
        ensures { MatchResult result (λ call. HandsIn client.old lane n client.new call) (λ _. client.new ≡ client.old) }
    {
        let Some(ordinal) = self.drawn.checked_add(1) else {
            return Err(AllocError);
        };
        if self.waiting.reserve(1).is_err() {
            return Err(AllocError);
        }
        let request = Request { lane, ordinal, n };
        let pass = client.pass(book, &request);
        let call = pass.call();
        self.drawn = ordinal;
        self.waiting.push_back_reserved(Sent::of(pass, request));
        Ok(call)
    }

    /// What came back of a client's call.
    fn take_out(&mut self, client: u32, call: u64) -> Option<Came<B>>
        ensures { IfSome result (IsOf client call) }
    {
        let place = self.back.iter().position(|came| is_of(came, client, call))?;
        let came = self.back.swap_remove(place);
        if is_of(&came, client, call) {
            Some(came)
        } else {
            None
        }
    }

    /// Puts down what came of a pass. Where there is no room it comes back.
    fn put_down(&mut self, came: Came<B>) -> Result<(), Came<B>> {
        if self.back.reserve(1).is_err() {
            return Err(came);
        }
        self.back.push_reserved(came);
        Ok(())
    }
}

/// Whether this came of the client's call.
fn is_of<B: Naming>(came: &Came<B>, client: u32, call: u64) -> bool
    ensures { result ≡ true → IsOf client call came.now }
{
    match came {
        Came::Done(answered) => answered.client() == client && answered.call() == call,
        Came::Unrun(pass) => pass.client() == client && pass.call() == call,
    }
}

/// A command that goes out over the desk, and what comes back of it: the reply, or none where it came back unrun. It waits
/// for the lane's worker. For want of memory nothing changes.
pub fn ask<B: Naming, R: Wait>(
    rt: &R,
    book: &Book<Counter, B>,
    desk: &Mutex<Desk<B>>,
    client: &mut ClientToken<Counter, B>,
    lane: u32,
    n: u64,
) -> Result<Option<u64>, AllocError>
    requires allowed { n ≤ client.old.account.holds }
    requires last { client.old.account.used < 2 ^ 63 - 1 }
    requires out { client.old.account.out ≡ [] }
    ensures asked { MatchResult result (λ reply. HasAsked ⟦<Counter as Machine>⟧ client.old lane n client.new reply) (λ _. client.new ≡ client.old) }
    ensures out { client.new.account.out ≡ [] }
{
    let call = desk.lock(rt).hand_in(book, client, lane, n)?;
    let came = wait_for(rt, desk, client.number(), call);
    Ok(settle(book, client, came))
}

/// Waits for what comes back of a client's call.
fn wait_for<B: Naming, R: Wait>(rt: &R, desk: &Mutex<Desk<B>>, client: u32, call: u64) -> Came<B>
    ensures { IsOf client call result }
{
    let backoff = Backoff::new();
    for _ in rt.forever() {
        if let Some(came) = desk.lock(rt).take_out(client, call) {
            return came;
        }
        backoff.snooze();
    }
    unreachable!()
}

/// Takes back what came of the client's call, and gives the reply, if it was run.
fn settle<B: Naming>(
    book: &Book<Counter, B>,
    client: &mut ClientToken<Counter, B>,
    came: Came<B>,
) -> Option<u64>
    requires { (call : _) × IsOf client.old.account.number call came }
    ensures { Settles ⟦<Counter as Machine>⟧ client.old came client.new result }
{
    match came {
        Came::Done(answered) => {
            let (done, reply) = answered.apart();
            client.take_back(book, done);
            Some(reply)
        }
        Came::Unrun(pass) => {
            client.take_unrun(book, pass);
            None
        }
    }
}

/// Runs what waits at the desk, until the flag is up and nothing waits.
pub fn serve<B: Naming, R: Wait>(
    rt: &R,
    alloc: Global,
    book: &Book<Counter, B>,
    desk: &Mutex<Desk<B>>,
    stop: &AtomicBool,
    lane: LaneToken<Counter, B>,
) -> LaneToken<Counter, B>
    requires { IsLaneKnown ⟦<Counter as Machine>⟧ lane }
    ensures { HasServed ⟦<Counter as Machine>⟧ lane result }
{
    let mut lane = lane;
    let backoff = Backoff::new();
    for _ in rt.forever() {
        let stopped = stop.load(Ordering::SeqCst);
        match next(rt, desk) {
            Some((sent, halted)) => {
                let came = work(rt, alloc, book, &mut lane, sent, halted);
                give_back(rt, desk, came);
                backoff.reset();
            }
            None => {
                if stopped {
                    return lane;
                }
                backoff.snooze();
            }
        }
    }
    unreachable!()
}

/// The pass that waits longest, and whether it is to go back unrun.
fn next<B: Naming, R: Wait>(rt: &R, desk: &Mutex<Desk<B>>) -> Option<(Sent<B>, bool)> {
    let mut desk = desk.lock(rt);
    let halted = desk.halted;
    let sent = desk.waiting.pop_front()?;
    Some((sent, halted))
}

/// Runs a pass, if it is the lane's next and isn't to go back unrun.
fn work<B: Naming, R: Wait>(
    rt: &R,
    alloc: Global,
    book: &Book<Counter, B>,
    lane: &mut LaneToken<Counter, B>,
    sent: Sent<B>,
    halted: bool,
) -> Came<B>
    requires { IsLaneKnown ⟦<Counter as Machine>⟧ lane.old }
    ensures works { Works ⟦<Counter as Machine>⟧ lane.old sent lane.new result }
    ensures served { HasServed ⟦<Counter as Machine>⟧ lane.old lane.new }
{
    let next = is_next(lane, &sent);
    let (pass, request) = sent.apart();
    if halted || !next {
        return Came::Unrun(pass);
    }
    match lane.run(rt, alloc, book, pass, request) {
        Ok((done, reply)) => Came::Done(Answered::of(done, reply)),
        Err(pass) => Came::Unrun(pass),
    }
}

/// Whether the pass is the lane's next.
fn is_next<B: Naming>(lane: &LaneToken<Counter, B>, sent: &Sent<B>) -> bool
    ensures { result ≡ true → ⟦<Counter as Machine>⟧.tagged sent.now.order.request ≡ (lane.now.lane, lane.now.count + 1) }
{
    let (at, ordinal) = sent.tag();
    at == lane.lane() && ordinal != 0 && ordinal - 1 == lane.count()
}

/// Puts down what came of a pass. It waits for room.
fn give_back<B: Naming, R: Wait>(rt: &R, desk: &Mutex<Desk<B>>, came: Came<B>) {
    let mut left = came;
    let backoff = Backoff::new();
    for _ in rt.forever() {
        match desk.lock(rt).put_down(left) {
            Ok(()) => return,
            Err(came) => left = came,
        }
        backoff.snooze();
    }
    unreachable!()
}
