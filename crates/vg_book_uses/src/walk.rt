//! One client, one lane and their calls, one after another.

ghost use Rattle.std.specs.Prelude.{◌≡◌, ◌+◌, ◌-◌, ◌^◌, ◌<◌, ◌≤◌, length};
ghost use Rattle.vg_book_uses.specs.Desks.{HasAsked, HasWorked};

use crate::counter::{Counter, Request};
use std::alloc::Global;
use std::sync::Wait;
use vg_book::{Book, ClientToken, LaneToken, Naming};
use vg_history::Machine;

/// A command that goes out, is run, and comes back: its reply, or none where there was no memory to run it.
pub fn command<B: Naming, R: Wait>(
    rt: &R,
    alloc: Global,
    book: &Book<Counter, B>,
    client: &mut ClientToken<Counter, B>,
    lane: &mut LaneToken<Counter, B>,
    n: u64,
) -> Option<u64>
    requires allowed { n ≤ client.old.account.holds }
    requires last { (client.old.account.used < 2 ^ 63 - 1) × (lane.old.count < 2 ^ 63) }
    ensures asked { HasAsked ⟦<Counter as Machine>⟧ client.old lane.old.lane n client.new result }
    ensures out { length client.new.account.out ≡ length client.old.account.out }
    ensures lane { HasWorked ⟦<Counter as Machine>⟧ lane.old lane.new result }
{
    let request = Request {
        lane: lane.lane(),
        ordinal: lane.count() + 1,
        n,
    };
    let pass = client.pass(book, &request);
    match lane.run(rt, alloc, book, pass, request) {
        Ok((done, reply)) => {
            client.take_back(book, done);
            Some(reply)
        }
        Err(pass) => {
            client.take_unrun(book, pass);
            None
        }
    }
}
