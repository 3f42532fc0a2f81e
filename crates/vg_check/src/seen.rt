//! What is kept of a client's entries, and the tests of its next one.

ghost use Rattle.std.specs.Prelude.{◌≡◌, ◌↔◌, [], false, replicate, IfOk, IsTrue};
ghost use Rattle.vg_client_holds.specs.Holds.{first_holds};
ghost use Rattle.vg_client_holds.specs.Setup.{IsSetup};
ghost use Rattle.vg_check.specs.StepWithin.{is_gone};
ghost use Rattle.vg_check.specs.TestsWithin.{IsNew, MayAct, MayAsk, MayGiveUp, is_first, is_known, is_leaving, is_next_act, is_next_command, is_next_on_lane};

use crate::counts::{number_at, zeros};
use crate::deniable::is_deniable_act;
use std::alloc::{AllocError, Global};
use vg_call_numbers::CallNumbers;
use vg_history::Machine;
use vg_machine::{Act, Display, Holds, Request, Setup, denied, is_part, lane_of};

/// What is kept of a client's entries.
#[derive(Drop)]
pub(crate) struct Seen {
    /// The numbers of its calls.
    pub(crate) numbers: CallNumbers,
    /// The greatest number of its commands on each lane, 0 where it has none there.
    pub(crate) last: Vec<u64>,
    /// Whether it has left.
    pub(crate) left: bool,
    pub(crate) holds: Holds,
}

impl Seen {
    /// Nothing is kept yet.
    pub(crate) fn new(alloc: Global, setup: &Setup, client: u32) -> Result<Seen, AllocError>
        requires { IsSetup setup.now }
        ensures { IfOk result (λ seen. IsNew setup.now client seen) }
    {
        Ok(Seen {
            last: zeros(alloc)?,
            numbers: CallNumbers::new(alloc),
            left: false,
            holds: Holds::new(alloc, setup, client),
        })
    }

    /// Whether the client has left, or has no entry.
    pub(crate) fn is_gone(&self) -> bool
        ensures { result ≡ is_gone self.now }
    {
        self.left || self.numbers.top() == 0
    }

    /// Whether the client may act so next.
    pub(crate) fn may_act(
        &mut self,
        alloc: Global,
        lanes: &[u64],
        call: u64,
        act: &Act,
    ) -> Result<bool, AllocError>
        ensures right { IfOk result (λ right. IsTrue right ↔ MayAct lanes.now self.old call act.now) }
        ensures same { self.new ≡ self.old }
    {
        let denied = is_deniable_act(alloc, &mut self.holds, act)?;
        Ok(
            denied
                && is_part(&self.holds, act)
                && self.is_next_act(call, act)
                && self.may_give_up(call, act)
                && is_known(lanes, act),
        )
    }

    fn is_next_act(&self, call: u64, act: &Act) -> bool
        ensures { result ≡ is_next_act self.now call act.now }
    {
        let top = self.numbers.top();
        top < call && !self.left && (top != 0 || is_first(act, call))
    }

    fn may_give_up(&self, call: u64, act: &Act) -> bool
        ensures { IsTrue result ↔ MayGiveUp self.now.numbers call act.now }
    {
        !Display::gives_up(act)
            || (self.numbers.are_all() && self.numbers.top() == call.saturating_sub(1))
    }

    /// Whether the client may ask this next.
    pub(crate) fn may_ask(
        &self,
        alloc: Global,
        lanes: &[u64],
        call: u64,
        request: &Request,
    ) -> Result<bool, AllocError>
        ensures { IfOk result (λ right. IsTrue right ↔ MayAsk lanes.now self.now call request.now) }
    {
        if self.holds.host {
            return Ok(false);
        }
        if !self.is_next_command(call, request.lane) || !is_next_on_lane(lanes, request) {
            return Ok(false);
        }
        let bytes = request.bytes.as_slice();
        Ok(denied(alloc, &self.holds, request.queue, bytes)?.is_none())
    }

    fn is_next_command(&self, call: u64, lane: u32) -> bool
        ensures { result ≡ is_next_command self.now call lane }
    {
        1 <= call
            && !self.numbers.has(call)
            && !self.left
            && self.numbers.top() != 0
            && number_at(self.last.as_slice(), lane) < call
    }
}

fn is_first(act: &Act, call: u64) -> bool
    ensures { result ≡ is_first act.now call }
{
    match act {
        Act::Enter => call == 1,
        _ => false,
    }
}

pub(crate) fn is_leaving(act: &Act) -> bool
    ensures { result ≡ is_leaving act.now }
{
    match act {
        Act::Leave => true,
        _ => false,
    }
}

fn is_known(lanes: &[u64], act: &Act) -> bool
    ensures { result ≡ is_known lanes.now act.now }
{
    match act {
        Act::Await { lane, ordinal } => *ordinal <= number_at(lanes, *lane),
        _ => true,
    }
}

fn is_next_on_lane(lanes: &[u64], request: &Request) -> bool
    ensures { result ≡ is_next_on_lane lanes.now request.now }
{
    request.lane == lane_of(request.queue, request.bytes.as_slice())
        && request.ordinal != 0
        && request.ordinal - 1 == number_at(lanes, request.lane)
}
