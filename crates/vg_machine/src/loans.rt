//! What a display remembers of the jobs that it has lent.

ghost use Rattle.std.specs.Prelude.{◌≡◌, ◌<◌, ◌==◌, ◌↔◌, All, IfNone, IfOk, IfSome, IsTrue, OnErr, OnOk, [], ◌∷◌, length};
ghost use Rattle.std.specs.List.{AllByRecursion, position};
ghost use Rattle.vg_history.specs.Jobs.{but_lane, of_lane};
ghost use Rattle.vg_history.specs.Lists.{Has};
ghost use Rattle.vg_machine.specs.Blocks.{is_lent, is_of_context, keeps_context, lent_pages};
ghost use Rattle.vg_pages.specs.Lending.{AreFlagged};
ghost use Rattle.vg_machine.specs.Jobs as jobs;
ghost use Rattle.vg_machine.specs.LoansWithin.{AllApart, is_of_lane};
ghost use Rattle.vg_machine.specs.OutWithin.{AreApart, job_lane};

use crate::job::Job;
use std::alloc::{AllocError, Global};
use std::marker::Model;
use std::snapshot::Snapshot;
use vg_pages::mark;

/// What is remembered of a job that was lent. A clause sees it as the job.
#[derive(Drop)]
struct Loan {
    lane: u32,
    resource: u32,
    /// The context that its request names, if it names one.
    context: Option<u32>,
    pages: Vec<u32>,
    job: Snapshot<Job>,
}

impl Model for Loan {
    ghost use Rattle.vg_machine.specs.Jobs.{Job};
    ghost use Rattle.vg_machine.specs.LoansWithin.{IsOfJob};

    ghost Value = { Job };

    ghost view = { λ l. l.job.value };

    ghost invariant = { λ l. IsOfJob l.lane l.resource l.context l.pages.items l.job.value };
}

impl Loan {
    /// What is to be remembered of this job.
    fn of(alloc: Global, job: &Job) -> Result<Loan, AllocError>
        ensures { IfOk result (λ loan. loan ≡ job.now) }
    {
        let pages = job.pages().to_vec(alloc)?;
        Ok(Loan {
            lane: job.lane(),
            resource: job.resource(),
            context: job.context(),
            pages,
            job: Snapshot::of(job),
        })
    }

    /// Whether it is of this lane.
    fn is_of_lane(&self, lane: u32) -> bool
        ensures { result ≡ is_of_lane lane self.now }
    {
        self.lane == lane
    }

    /// Whether it has the pixels of this resource.
    fn has_resource(&self, id: u32) -> bool
        ensures { result ≡ (self.now.resource == id) }
    {
        self.resource == id
    }

    /// Whether its request names this context.
    fn has_context(&self, id: u32) -> bool
        ensures { result ≡ is_of_context id self.now.asked }
    {
        self.context == Some(id)
    }
}

/// What is remembered of all jobs that are lent.
#[derive(Drop)]
pub(crate) struct Loans {
    /// For each guest page whether its bytes are being copied.
    flags: Vec<bool>,
    /// The youngest first.
    loans: Vec<Loan>,
}

impl Model for Loans {
    ghost use Rattle.std.specs.Prelude.{length};
    ghost use Rattle.vg_machine.specs.Loans.{Lent};
    ghost use Rattle.vg_machine.specs.LoansWithin.{AreLoans};

    ghost Value = { Lent };

    ghost view = { λ l. record { count = length l.flags.items; jobs = l.loans.items } };

    ghost invariant = { λ l. AreLoans l.flags.items l.loans.items };
}

impl Loans {
    /// No jobs, and so many guest pages.
    pub(crate) fn new(alloc: Global, pages: u32) -> Result<Loans, AllocError>
        ensures { IfOk result (λ loans. loans ≡ record { count = pages; jobs = [] }) }
    {
        let flags = vec![in alloc; false; pages as usize]?;
        Ok(Loans {
            flags,
            loans: Vec::new(alloc),
        })
    }

    /// Whether no job is lent.
    pub(crate) fn is_empty(&self) -> bool
        ensures { IsTrue result ↔ (self.now.jobs ≡ []) }
    {
        self.loans.is_empty()
    }

    /// Whether the pixels of this resource are away.
    pub(crate) fn has_resource(&self, id: u32) -> bool
        ensures { result ≡ is_lent self.now.jobs id }
    {
        self.loans.iter().any(|loan| loan.has_resource(id))
    }

    /// Whether the request of a job names this context.
    pub(crate) fn has_context(&self, id: u32) -> bool
        ensures { result ≡ keeps_context self.now.jobs id }
    {
        self.loans.iter().any(|loan| loan.has_context(id))
    }

    /// For each guest page whether its bytes are being copied.
    pub(crate) fn flags(&self) -> &[bool]
        ensures { AreFlagged result.now (lent_pages self.now.jobs) }
    {
        self.flags.as_slice()
    }

    /// Does nothing: it tells that no two jobs have a lane, resource or page in common.
    pub(crate) fn are_apart(&self)
        ensures { AllApart self.now.jobs }
    {
        let _ = &self.loans;
    }

    /// Adds a job.
    pub(crate) fn add(&mut self, alloc: Global, job: &Job) -> Result<(), AllocError>
        requires apart { AllByRecursion (AreApart job.now) self.old.jobs }
        requires inside { All (λ page. page < self.old.count) job.now.pages }
        ensures ok { OnOk result (self.new ≡ record self.old { jobs = job.now ∷ self.old.jobs }) }
        ensures err { OnErr result (self.new ≡ self.old) }
    {
        let loan = Loan::of(alloc, job)?;
        self.loans.reserve(1)?;
        self.loans.insert(0, loan).unwrap();
        mark(self.flags.as_mut_slice(), job.pages(), true);
        Ok(())
    }

    /// Takes the job of this lane away, if there is one, and gives its resource.
    pub(crate) fn end(&mut self, lane: u32) -> Option<u32>
        ensures none { IfNone result (self.new ≡ self.old) }
        ensures none_of { IfNone result (of_lane job_lane lane self.old.jobs ≡ []) }
        ensures some { IfSome result (λ resource. (job : jobs.Job) × Has self.old.jobs job × (job.asked.lane ≡ lane) × (job.resource ≡ resource)) }
        ensures jobs { IfSome result (λ resource. self.new ≡ record self.old { jobs = but_lane job_lane lane self.old.jobs }) }
    {
        let place = self.place_of(lane)?;
        let loan = self.loans.remove(place);
        mark(self.flags.as_mut_slice(), loan.pages.as_slice(), false);
        Some(loan.resource)
    }

    /// Where the job of this lane stands, if there is one.
    fn place_of(&self, lane: u32) -> Option<usize>
        ensures place { result ≡ position (is_of_lane lane) self.now.jobs }
        ensures within { IfSome result (λ place. place < length self.now.jobs) }
    {
        self.loans.iter().position(|loan| loan.is_of_lane(lane))
    }
}
