//! The machine and the history, in the hands of who has the turn.

ghost use Rattle.std.specs.Prelude.{◌≡◌, ℕ, ◌+◌, ◌-◌, ◌^◌, ◌<◌, true, false, [], ◌∷◌, ◌++◌, length, IfOk, IfErr, OnErr};
ghost use Rattle.vg_history.specs.Lists.{Has};
ghost use Rattle.vg_history.specs.Begins.{IfLent, IfWhole};
ghost use Rattle.vg_book.specs.declared.board.Slot.TheVariants.{Held};
ghost use Rattle.vg_book.specs.HandsWithin.{IsSameCore, IsLaneClear, ActsOn, RunsWhole, Lends, EndsOn};

use crate::board::{Core, Slot};
use std::alloc::{AllocError, Global};
use vg_history::{Begun, Machine};

impl<M: Machine> Core<M> {
    /// Does the act, and enters it. For want of memory nothing changes.
    fn act(
        &mut self,
        alloc: Global,
        client: u32,
        call: u64,
        holds: &mut M::Holds,
        act: M::Act,
    ) -> Result<(u64, M::ActReply), AllocError>
        requires count { M.count (M.state self.old.machine) < 2 ^ 31 - 1 }
        requires unblocked { M.blocks_act self.old.machine act ≡ false }
        ensures ok { IfOk result (λ r. ActsOn M.Machine self.old client call holds.old act self.new holds.new r.0 r.1) }
        ensures err { OnErr result (IsSameCore M.Machine self.old self.new × (holds.new ≡ holds.old)) }
    {
        self.history
            .act(alloc, &mut self.machine, client, call, holds, act)
    }

    /// Runs the request as a whole, and enters it, or has its job lent.
    fn begin(
        &mut self,
        alloc: Global,
        client: u32,
        call: u64,
        request: M::Request,
    ) -> Result<Begun<(M::Job, M::Request), (u64, M::Reply)>, M::Request>
        requires count { M.count (M.state self.old.machine) < 2 ^ 31 - 1 }
        requires unblocked { M.blocks self.old.machine request ≡ false }
        requires lane { IsLaneClear M.Machine self.old request }
        ensures whole { IfOk result (λ b. IfWhole b (λ r. RunsWhole M.Machine self.old client call request self.new r.0 r.1)) }
        ensures lent { IfOk result (λ b. IfLent b (λ j. (j.1 ≡ request) × Lends M.Machine self.old request self.new j.0)) }
        ensures err { IfErr result (λ q. IsSameCore M.Machine self.old self.new × (q ≡ request)) }
    {
        self.history
            .begin(alloc, &mut self.machine, client, call, request)
    }

    /// Brings back the request's job, and enters the request.
    fn end(&mut self, client: u32, call: u64, request: M::Request, job: M::Job) -> (u64, M::Reply)
        requires count { M.count (M.state self.old.machine) ≡ length self.old.history.entries }
        requires kept { 0 < self.old.history.kept }
        requires lent { (i : M.Job) × Has (M.lent self.old.machine) i × (job ≡ M.worked i) }
        requires asked { M.asked job ≡ request }
        ensures { EndsOn M.Machine self.old client call request self.new result.0 result.1 }
    {
        self.history
            .end(&mut self.machine, client, call, request, job)
    }
}

impl<M: Machine> Slot<M> {
    pub(crate) fn into_core(self) -> Core<M>
        requires { (c : _) × (self ≡ Held c) }
        ensures { self ≡ Held result }
    {
        match self {
            Slot::Held(core) => core,
            _ => unreachable!(),
        }
    }

    pub(crate) fn has_room(&self) -> bool
        requires { (c : _) × (self.now ≡ Held c) }
        ensures { (c : _) → self.now ≡ Held c → result ≡ true → length c.history.entries < 2 ^ 31 - 1 }
    {
        match self {
            Slot::Held(core) => core.history.has_room(),
            _ => unreachable!(),
        }
    }

    /// Whether no job that is out stands in the way of the request.
    pub(crate) fn is_open(&self, request: &M::Request) -> bool
        requires { (c : _) × (self.now ≡ Held c) }
        ensures { (c : _) → self.now ≡ Held c → result ≡ true → M.blocks c.machine request.now ≡ false }
    {
        match self {
            Slot::Held(core) => !core.machine.blocked(request),
            _ => unreachable!(),
        }
    }

    /// The same of an act.
    pub(crate) fn is_open_to(&self, act: &M::Act) -> bool
        requires { (c : _) × (self.now ≡ Held c) }
        ensures { (c : _) → self.now ≡ Held c → result ≡ true → M.blocks_act c.machine act.now ≡ false }
    {
        match self {
            Slot::Held(core) => !core.machine.act_blocked(act),
            _ => unreachable!(),
        }
    }

    pub(crate) fn act(
        &mut self,
        alloc: Global,
        client: u32,
        call: u64,
        holds: &mut M::Holds,
        act: M::Act,
    ) -> Result<(u64, M::ActReply), AllocError>
        requires { (c : _) × (self.old ≡ Held c) × (M.count (M.state c.machine) < 2 ^ 31 - 1) × (M.blocks_act c.machine act ≡ false) }
        ensures ok { IfOk result (λ r. (c : _) → self.old ≡ Held c → (d : _) × (self.new ≡ Held d) × ActsOn M.Machine c client call holds.old act d holds.new r.0 r.1) }
        ensures err { OnErr result ((c : _) → self.old ≡ Held c → (d : _) × (self.new ≡ Held d) × IsSameCore M.Machine c d × (holds.new ≡ holds.old)) }
    {
        match self {
            Slot::Held(core) => core.act(alloc, client, call, holds, act),
            _ => unreachable!(),
        }
    }

    pub(crate) fn begin(
        &mut self,
        alloc: Global,
        client: u32,
        call: u64,
        request: M::Request,
    ) -> Result<Begun<(M::Job, M::Request), (u64, M::Reply)>, M::Request>
        requires { (c : _) × (self.old ≡ Held c) × (M.count (M.state c.machine) < 2 ^ 31 - 1) × (M.blocks c.machine request ≡ false) × IsLaneClear M.Machine c request }
        ensures whole { IfOk result (λ b. IfWhole b (λ r. (c : _) → self.old ≡ Held c → (d : _) × (self.new ≡ Held d) × RunsWhole M.Machine c client call request d r.0 r.1)) }
        ensures lent { IfOk result (λ b. IfLent b (λ j. (j.1 ≡ request) × ((c : _) → self.old ≡ Held c → (d : _) × (self.new ≡ Held d) × Lends M.Machine c request d j.0))) }
        ensures err { IfErr result (λ q. (q ≡ request) × ((c : _) → self.old ≡ Held c → (d : _) × (self.new ≡ Held d) × IsSameCore M.Machine c d)) }
    {
        match self {
            Slot::Held(core) => core.begin(alloc, client, call, request),
            _ => unreachable!(),
        }
    }

    pub(crate) fn end(
        &mut self,
        client: u32,
        call: u64,
        request: M::Request,
        job: M::Job,
    ) -> (u64, M::Reply)
        requires held { (c : _) × (self.old ≡ Held c) × (M.count (M.state c.machine) ≡ length c.history.entries) × (0 < c.history.kept) × ((i : M.Job) × Has (M.lent c.machine) i × (job ≡ M.worked i)) }
        requires asked { M.asked job ≡ request }
        ensures { (c : _) → self.old ≡ Held c → (d : _) × (self.new ≡ Held d) × EndsOn M.Machine c client call request d result.0 result.1 }
    {
        match self {
            Slot::Held(core) => core.end(client, call, request, job),
            _ => unreachable!(),
        }
    }
}
