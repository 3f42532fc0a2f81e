//! A display, of which a history is kept.

ghost use Rattle.std.specs.Prelude.{◌≡◌, ◌<◌, ◌-◌, ◌^◌, ◌∷◌, [], false, true, IfNone, IfOk, IfSome, OnErr, OnOk};
ghost use Rattle.vg_client_holds.specs.Setup.{IsSetup};
ghost use Rattle.vg_client_holds.specs.Holds.{update};
ghost use Rattle.vg_history.specs.Begins.{IfLent, IfWhole};
ghost use Rattle.vg_history.specs.Jobs.{IsBack, but_lane, of_lane};
ghost use Rattle.vg_device.specs.ActStep.{act_step};
ghost use Rattle.vg_device.specs.Copies.{AsksFor, IsAccepted, copies};
ghost use Rattle.vg_device.specs.RequestStep.{request_step};
ghost use Rattle.vg_device.specs.State.{start};
ghost use Rattle.vg_machine.specs.Blocks.{blocks, blocks_act};
ghost use Rattle.vg_machine.specs.Jobs.{worked};
ghost use Rattle.vg_machine.specs.OutWithin.{job_lane};

use crate::job::Job;
use crate::loans::Loans;
use std::alloc::{AllocError, Global};
use std::marker::Model;
use vg_chain::Shape;
use vg_device::{Act, ActReply, Copy, Device, Holds, Reply, Request, Setup};
use vg_history::Begun;
use vg_scanout::Frame;
use vg_wire_ext::{Named, named};

/// A display: the device, and what it remembers of the jobs that it has lent.
#[derive(Drop)]
pub struct Display {
    device: Device,
    loans: Loans,
}

impl Model for Display {
    ghost use Rattle.std.specs.Prelude.{◌≡◌};
    ghost use Rattle.std.specs.List.{AllByRecursion};
    ghost use Rattle.vg_machine.specs.Lender.{Lender};
    ghost use Rattle.vg_machine.specs.OutWithin.{IsOut};

    ghost Value = { Lender };

    ghost view = { λ d. record { state = d.device; lent = d.loans.jobs } };

    ghost invariant = { λ d. (d.loans.count ≡ d.device.setup.pages) × AllByRecursion (IsOut d.device) d.loans.jobs };
}

impl Display {
    /// The display before the first entry.
    pub fn new(alloc: Global, setup: &Setup) -> Result<Display, AllocError>
        requires { IsSetup setup.now }
        ensures state { IfOk result (λ display. display.state ≡ start setup.now) }
        ensures lent { IfOk result (λ display. display.lent ≡ []) }
    {
        let loans = Loans::new(alloc, setup.pages)?;
        let device = Device::new(alloc, setup)?;
        Ok(Display { device, loans })
    }

    /// How many entries there are so far.
    pub fn entries(&self) -> u64
        ensures { result ≡ self.now.state.entries }
    {
        self.device.entries()
    }

    /// The frames so far, in the order in which they were made.
    pub fn frames(&self) -> &[Frame]
        ensures { result.now ≡ self.now.state.scanouts.frames }
    {
        self.device.frames()
    }

    /// The frames, which the display gives up.
    pub fn into_frames(self) -> Vec<Frame>
        ensures { result.items ≡ self.state.scanouts.frames }
    {
        self.device.into_frames()
    }

    /// Does the act of a client that the jobs don't stand in the way of, and gives the reply twice.
    pub(crate) fn do_act(
        &mut self,
        alloc: Global,
        client: u32,
        holds: &mut Holds,
        act: &Act,
    ) -> Result<(ActReply, ActReply), AllocError>
        requires count { self.old.state.entries < 2 ^ 31 - 1 }
        requires free { blocks_act self.old.lent self.old.state act.now ≡ false }
        ensures step { IfOk result (λ twice. (self.new.state, twice.0) ≡ act_step self.old.state client act.now) }
        ensures same { IfOk result (λ twice. twice.1 ≡ twice.0) }
        ensures holds { IfOk result (λ twice. holds.new ≡ update holds.old act.now twice.0) }
        ensures lent { self.new.lent ≡ self.old.lent }
        ensures err { OnErr result ((self.new.state ≡ self.old.state) × (holds.new ≡ holds.old)) }
    {
        self.device.shares_its_pages();
        self.device.act_as(alloc, client, holds, act)
    }

    /// Runs a request that the jobs don't stand in the way of, or lends its job: exactly where it copies something.
    pub(crate) fn start(
        &mut self,
        alloc: Global,
        request: &Request,
    ) -> Result<Begun<Job, (Reply, Reply)>, AllocError>
        requires count { self.old.state.entries < 2 ^ 31 - 1 }
        requires free { blocks self.old.lent self.old.state request.now ≡ false }
        requires lane { of_lane job_lane request.now.lane self.old.lent ≡ [] }
        ensures whole { IfOk result (λ b. IfWhole b (λ twice. ((self.new.state, twice.0) ≡ request_step self.old.state request.now) × (twice.1 ≡ twice.0) × (self.new.lent ≡ self.old.lent) × (copies self.old.state request.now ≡ false))) }
        ensures job { IfOk result (λ b. IfLent b (λ job. (self.new.state ≡ self.old.state) × (self.new.lent ≡ job ∷ self.old.lent) × (job.asked ≡ request.now) × (copies self.old.state request.now ≡ true))) }
        ensures err { OnErr result (self.new ≡ self.old) }
    {
        match self.asked_copy(alloc, request)? {
            Some(copy) => Ok(Begun::Lent(self.lend(alloc, request, &copy)?)),
            None => Ok(Begun::Whole(self.run(alloc, request)?)),
        }
    }

    /// The copy that a request asks for, if it asks for one.
    fn asked_copy(&self, alloc: Global, request: &Request) -> Result<Option<Copy>, AllocError>
        ensures asks { IfOk result (λ answer. IfSome answer (AsksFor self.now.state request.now)) }
        ensures accepted { IfOk result (λ answer. IfSome answer (IsAccepted self.now.state)) }
        ensures some { IfOk result (λ answer. IfSome answer (λ copy. copies self.now.state request.now ≡ true)) }
        ensures none { IfOk result (λ answer. IfNone answer (copies self.now.state request.now ≡ false)) }
    {
        match named(request.queue, request.bytes.as_slice()) {
            Named::Transfer { .. } => self.device.asked_copy(alloc, request),
            _ => Ok(None),
        }
    }

    /// Runs a request as a whole, and gives its reply twice.
    fn run(&mut self, alloc: Global, request: &Request) -> Result<(Reply, Reply), AllocError>
        requires count { self.old.state.entries < 2 ^ 31 - 1 }
        requires free { blocks self.old.lent self.old.state request.now ≡ false }
        ensures step { IfOk result (λ twice. (self.new.state, twice.0) ≡ request_step self.old.state request.now) }
        ensures same { IfOk result (λ twice. twice.1 ≡ twice.0) }
        ensures lent { self.new.lent ≡ self.old.lent }
        ensures err { OnErr result (self.new ≡ self.old) }
    {
        self.device.request(alloc, request)
    }

    /// Lends the job of a request that asks for this copy.
    fn lend(&mut self, alloc: Global, request: &Request, copy: &Copy) -> Result<Job, AllocError>
        requires asks { AsksFor self.old.state request.now copy.now }
        requires accepted { IsAccepted self.old.state copy.now }
        requires free { blocks self.old.lent self.old.state request.now ≡ false }
        requires lane { of_lane job_lane request.now.lane self.old.lent ≡ [] }
        ensures job { IfOk result (λ job. (self.new.state ≡ self.old.state) × (self.new.lent ≡ job ∷ self.old.lent) × (job.asked ≡ request.now)) }
        ensures err { OnErr result (self.new ≡ self.old) }
    {
        self.loans.are_apart();
        let replies = Device::acceptance_of(alloc, request)?;
        let (pixels, source) = self.device.lend(alloc, copy)?;
        let job = Job::new(request, copy, pixels, source, replies);
        match self.loans.add(alloc, &job) {
            Ok(()) => Ok(job),
            Err(error) => {
                let (pixels, _) = job.into_parts();
                self.device.take_back(copy.resource, pixels);
                Err(error)
            }
        }
    }

    /// Brings a job back, and gives its reply twice. It takes no memory. Of a job that isn't one of those that were lent, after it was
    /// worked, nothing is said.
    pub(crate) fn bring_back(&mut self, job: Job) -> (Reply, Reply)
        requires { self.old.state.entries < 2 ^ 31 - 1 }
        ensures step { IsBack worked self.old.lent job → (self.new.state, result.0) ≡ request_step self.old.state job.asked }
        ensures same { IsBack worked self.old.lent job → result.1 ≡ result.0 }
        ensures lent { IsBack worked self.old.lent job → self.new.lent ≡ but_lane job_lane job.asked.lane self.old.lent }
    {
        self.loans.are_apart();
        let ended = self.loans.end(job.lane());
        let (pixels, replies) = job.into_parts();
        if let Some(resource) = ended {
            self.device.put_back(resource, pixels);
        }
        replies
    }

    /// Whether the jobs stand in the way of a request.
    pub(crate) fn keeps_from(&self, request: &Request) -> bool
        ensures { result ≡ blocks self.now.lent self.now.state request.now }
    {
        if self.loans.is_empty() {
            return false;
        }
        if let Shape::Bad { .. } = request.shape {
            return false;
        }
        let flags = self.loans.flags();
        match named(request.queue, request.bytes.as_slice()) {
            Named::Nothing => false,
            Named::Resource { id } => self.loans.has_resource(id),
            Named::Flush { id } => {
                self.loans.has_resource(id) || self.device.blob_touches(id, flags)
            }
            Named::Transfer { id } => {
                self.loans.has_resource(id) || self.device.backing_touches(id, flags)
            }
            Named::Context { id } => self.loans.has_context(id),
        }
    }

    /// Whether they stand in the way of an act.
    pub(crate) fn keeps_from_act(&self, act: &Act) -> bool
        ensures { result ≡ blocks_act self.now.lent self.now.state act.now }
    {
        if self.loans.is_empty() {
            return false;
        }
        let flags = self.loans.flags();
        match act {
            Act::Store { key, .. } => self.device.buffer_has(*key, flags),
            Act::Load { key, .. } => self.device.buffer_has(*key, flags),
            Act::Reserve { bytes, .. } => self.device.would_take(*bytes, flags),
            _ => false,
        }
    }
}
