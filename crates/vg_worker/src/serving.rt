//! A worker's loop.

ghost use Rattle.std.specs.Prelude.{◌≡◌, ◌+◌, true, false};
ghost use Rattle.vg_cargo.specs.DeviceEnds.{IsCargoOf};
ghost use Rattle.vg_cargo.specs.Walked.{IsWalkOf};
ghost use Rattle.vg_front.specs.Loans.{right_of};
ghost use Rattle.vg_worker.specs.Taking.{IsOut, IsReady, IsReadyIf};

use crate::answering::{Back, answer_measured, unrun};
use crate::gate::{Gate, Passage};
use crate::resting::Rest;
use crate::taken::{Found, give_back, give_up, take};
use crate::worker::Worker;
use std::alloc::Global;
use std::sync::atomic::{AtomicBool, Ordering};
use std::sync::{Mutex, Wait};
use vg_book::{Book, Carried, LaneToken, Naming};
use vg_cargo::{Cargo, Tag};
use vg_chain::{Chain, ChainFault};
use vg_front::{Front, Loan};
use vg_history::{Tagged, Turn};
use vg_machine::Display;
use vg_ring::Rings;

/// Takes commands, runs them and completes them, until the flag is up and there is nothing to do and nobody works on a lane.
/// It waits for work, for the front's lock and for the turn of the book: once nothing is in either ring it dozes, and asks the
/// front's bells alone until one of them was rung or the flag is up. After want of memory the front is halted: from then on each
/// command goes back unrun, with no bytes.
pub fn serve<G: Gate, B: Naming, N: Rings, R: Wait>(
    rt: &R,
    alloc: Global,
    front: &Mutex<Front<Carried<Display, B>, LaneToken<Display, B>, N>>,
    book: &Book<Display, B>,
    gate: &G,
    stop: &AtomicBool,
) {
    serve_past(rt, &Worker::new(alloc, front, book, gate, stop));
}

/// The same, for a gate that need not be shared.
pub(crate) fn serve_past<G: Passage, B: Naming, N: Rings, R: Wait>(
    rt: &R,
    worker: &Worker<'_, G, B, N>,
) {
    let mut rest = Rest::new();
    let mut dozing = false;
    for _turn in rt.forever() {
        let stopped = worker.stop.load(Ordering::SeqCst);
        match take(worker.alloc, worker.front, stopped, dozing) {
            Found::Fetched => {
                dozing = false;
                rest.end();
            }
            Found::Run {
                token,
                right,
                cargo,
                chain,
            } => {
                work(rt, worker, token, right, cargo, chain);
                dozing = false;
                rest.end();
            }
            Found::Idle {
                ended,
                dozing: asleep,
            } => {
                if ended {
                    return;
                }
                dozing = asleep;
                rest.go_on(rt, dozing);
            }
        }
    }
}

/// Runs a command that was taken, or gives it back unrun where it has no chain.
fn work<G: Passage, B: Naming, N: Rings, R: Wait>(
    rt: &R,
    worker: &Worker<'_, G, B, N>,
    token: LaneToken<Display, B>,
    right: Loan<N>,
    cargo: Cargo<Carried<Display, B>>,
    chain: Option<Result<Chain, ChainFault>>,
)
    requires out { IsOut ⟦<Carried<Display, B> as Tagged>⟧.is_wanted ⟦<LaneToken<Display, B> as Turn>⟧.lane_of token right cargo }
    requires ready { IsReadyIf ⟦<LaneToken<Display, B> as Turn>⟧.count_of token right cargo chain }
{
    let Tag { lane, ordinal } = right.tag();
    worker.gate.pass_before(lane, ordinal);
    match chain {
        Some(chain) => run(rt, worker, token, right, cargo, &chain),
        None => give_up(rt, worker.front, token, right, unrun(cargo)),
    }
    worker.gate.pass_answered(lane, ordinal);
}

/// Runs a command whose chain was walked, and completes it.
fn run<G: Passage, B: Naming, N: Rings, R: Wait>(
    rt: &R,
    worker: &Worker<'_, G, B, N>,
    token: LaneToken<Display, B>,
    right: Loan<N>,
    cargo: Cargo<Carried<Display, B>>,
    chain: &Result<Chain, ChainFault>,
)
    requires out { IsOut ⟦<Carried<Display, B> as Tagged>⟧.is_wanted ⟦<LaneToken<Display, B> as Turn>⟧.lane_of token right cargo }
    requires ready { IsReady ⟦<LaneToken<Display, B> as Turn>⟧.count_of token right }
    requires walk { IsWalkOf cargo.parcel chain.now }
{
    let mut token = token;
    let Back { cargo, len, ran } = answer_measured(
        rt,
        worker.alloc,
        worker.book,
        &mut token,
        chain,
        cargo,
    );
    if ran {
        give_back(rt, worker.front, token, right, len, cargo);
    } else {
        give_up(rt, worker.front, token, right, cargo);
    }
}
