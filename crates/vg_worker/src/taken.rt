//! What a worker takes from the front that it shares with others, and gives back to it.

ghost use Rattle.std.specs.Prelude.{◌≡◌, true, false, [], length, MatchOption};
ghost use Rattle.vg_cargo.specs.DeviceEnds.{IsCargoOf};
ghost use Rattle.vg_cargo.specs.Walked.{IsWalkOf};
ghost use Rattle.vg_front.specs.Loans.{right_of};
ghost use Rattle.vg_front.specs.Fronts.{HasWalked, IsLent};
ghost use Rattle.vg_worker.specs.Taking.{Dozes, DozesIf, EndsIf, IsFound, IsOutOf, says_ended};

use std::alloc::Global;
use std::sync::{Mutex, Wait};
use vg_cargo::Cargo;
use vg_chain::{Chain, ChainFault};
use vg_front::{Front, Loan, Work};
use vg_history::{Tagged, Turn};
use vg_ring::Rings;

/// What a worker finds in one look.
#[derive(Drop)]
pub enum Found<P: Tagged, T: Turn + Drop, N: Rings> {
    /// A command more waits.
    Fetched,
    /// A command, with its chain or the chain's fault. None where it is to go back unrun.
    Run {
        token: T,
        right: Loan<N>,
        cargo: Cargo<P>,
        chain: Option<Result<Chain, ChainFault>>,
    },
    /// There is nothing to do now; where the worker is to stop, whether nothing waits and nobody works on a lane; and whether it may doze:
    /// then it needs to look at no ring until it is kicked.
    Idle {
        ended: bool,
        dozing: bool,
    },
}

/// Looks for work, all of it under one lock. Where somebody else has the lock there is nothing to do now: a worker that looks for
/// work doesn't sleep on the lock, so nobody has to wake it.
pub(crate) fn take<P: Tagged, T: Turn + Drop, N: Rings>(
    alloc: Global,
    front: &Mutex<Front<P, T, N>>,
    stopped: bool,
    dozing: bool,
) -> Found<P, T, N>
    ensures found { IsFound P.is_wanted T.lane_of T.count_of result }
    ensures ended { says_ended result ≡ true → stopped ≡ true }
{
    match front.try_lock() {
        Some(front) => {
            let mut front = front;
            look(alloc, &mut front, stopped, dozing)
        }
        None => Found::Idle {
            ended: false,
            dozing,
        },
    }
}

/// Looks for work: a worker that dozes asks for a kick alone, until there was one or it is to stop; any other takes a step.
pub fn look<P: Tagged, T: Turn + Drop, N: Rings>(
    alloc: Global,
    front: &mut Front<P, T, N>,
    stopped: bool,
    dozing: bool,
) -> Found<P, T, N>
    ensures found { IsFound P.is_wanted T.lane_of T.count_of result }
    ensures ended { EndsIf stopped front.new result }
    ensures dozes { DozesIf stopped dozing front.old result front.new }
{
    if dozing && !stopped {
        wake(alloc, front)
    } else {
        step(alloc, front, stopped)
    }
}

/// Asks for a kick, and takes a step where there was one.
fn wake<P: Tagged, T: Turn + Drop, N: Rings>(
    alloc: Global,
    front: &mut Front<P, T, N>,
) -> Found<P, T, N>
    ensures found { IsFound P.is_wanted T.lane_of T.count_of result }
    ensures goes_on { says_ended result ≡ false }
    ensures dozes { Dozes front.old result front.new }
{
    if !front.called() {
        return Found::Idle {
            ended: false,
            dozing: true,
        };
    }
    step(alloc, front, false)
}

/// Takes a step, and one more where that fetched a command: mostly it is the one that is given out.
fn step<P: Tagged, T: Turn + Drop, N: Rings>(
    alloc: Global,
    front: &mut Front<P, T, N>,
    stopped: bool,
) -> Found<P, T, N>
    ensures found { IsFound P.is_wanted T.lane_of T.count_of result }
    ensures ended { EndsIf stopped front.new result }
{
    match front.step() {
        Work::Fetched => step_on(alloc, front),
        Work::Run {
            token,
            right,
            cargo,
        } => given_out(alloc, front, token, right, cargo),
        Work::Idle => Found::Idle {
            ended: stopped && !front.busy(),
            dozing: !stopped && front.doze(),
        },
    }
}

/// Takes the step behind one that fetched a command.
fn step_on<P: Tagged, T: Turn + Drop, N: Rings>(
    alloc: Global,
    front: &mut Front<P, T, N>,
) -> Found<P, T, N>
    ensures found { IsFound P.is_wanted T.lane_of T.count_of result }
    ensures goes_on { says_ended result ≡ false }
{
    match front.step() {
        Work::Run {
            token,
            right,
            cargo,
        } => given_out(alloc, front, token, right, cargo),
        Work::Fetched | Work::Idle => Found::Fetched,
    }
}

/// A command that was given out, with its chain.
fn given_out<P: Tagged, T: Turn + Drop, N: Rings>(
    alloc: Global,
    front: &mut Front<P, T, N>,
    token: T,
    right: Loan<N>,
    cargo: Cargo<P>,
) -> Found<P, T, N>
    requires { IsOutOf P.is_wanted T.lane_of T.count_of front.old token right cargo }
    ensures found { IsFound P.is_wanted T.lane_of T.count_of result }
    ensures goes_on { says_ended result ≡ false }
{
    let mut right = right;
    let chain = walk(alloc, front, &mut right, &cargo);
    Found::Run {
        token,
        right,
        cargo,
        chain,
    }
}

/// The chain of a command that was given out. None where the front is halted, or for want of memory.
fn walk<P: Tagged, T: Turn + Drop, N: Rings>(
    alloc: Global,
    front: &mut Front<P, T, N>,
    right: &mut Loan<N>,
    cargo: &Cargo<P>,
) -> Option<Result<Chain, ChainFault>>
    requires lent { IsLent front.old right.old }
    requires cargo { IsCargoOf (right_of right.old).entry cargo.now }
    ensures { MatchOption result (right.new ≡ right.old) (λ chain. HasWalked right.old right.new × (front.old.control.halted ≡ false) × IsWalkOf cargo.now.parcel chain) }
{
    if front.halted() {
        return None;
    }
    front.chain(alloc, right, cargo).ok()
}

/// Completes a command that was run, with the length of its response in bytes.
pub(crate) fn give_back<P: Tagged, T: Turn + Drop, N: Rings, R: Wait>(
    rt: &R,
    front: &Mutex<Front<P, T, N>>,
    token: T,
    right: Loan<N>,
    len: u32,
    cargo: Cargo<P>,
)
    requires lane { T.lane_of token ≡ (right_of right).entry.lane }
    requires cargo { IsCargoOf (right_of right).entry cargo × (P.is_wanted cargo.pass ≡ false) }
    requires len { length cargo.parcel.response ≡ len }
    requires turn { ((right_of right).walked ≡ true) × (T.count_of token ≡ (right_of right).entry.ordinal) }
{
    front.lock(rt).finish(token, right, len, cargo);
}

/// Halts the front and completes a command that was not run, under one lock: what was known of the front under another lock
/// need not hold any more.
pub(crate) fn give_up<P: Tagged, T: Turn + Drop, N: Rings, R: Wait>(
    rt: &R,
    front: &Mutex<Front<P, T, N>>,
    token: T,
    right: Loan<N>,
    cargo: Cargo<P>,
)
    requires lane { T.lane_of token ≡ (right_of right).entry.lane }
    requires cargo { IsCargoOf (right_of right).entry cargo × (P.is_wanted cargo.pass ≡ false) }
    requires empty { cargo.parcel.response ≡ [] }
{
    let mut front = front.lock(rt);
    front.halt();
    front.finish(token, right, 0, cargo);
}
