//! A history while it grows, beside its machine.

ghost use Rattle.std.specs.Prelude.{◌≡◌, ◌<◌, ◌≤◌, ◌-◌, ◌+◌, ◌^◌, [], ◌∷◌, ◌++◌, length, MatchBool, true, false, IfOk, IfErr, OnErr};
ghost use Rattle.vg_history.specs.declared.entry.Entry.TheVariants.{Act, Command};
ghost use Rattle.vg_history.specs.Jobs.{IsBack, of_lane, but_lane, lane_by};
ghost use Rattle.vg_history.specs.Begins.{IfLent, IfWhole};

use crate::begun::Begun;
use crate::entry::Entry;
use crate::held::{History, MOST, counts_of, enter};
use crate::machine::Machine;
use crate::spelled::Lines;
use std::alloc::{AllocError, Global};
use std::marker::Model;

/// A history to which a machine's acts and requests are added. A clause sees its entries, and of how many jobs a place is
/// kept for the entry that is still to come.
///
/// A place is kept by its number and by memory to hold the entry whole, so that what is brought back can be entered.
#[derive(Drop)]
pub struct Growing<M: Machine> {
    lines: Lines<M>,
    whole: Vec<Entry<M>>,
    first: u64,
    second: u64,
    kept: usize,
}

impl<M: Machine> Model for Growing<M> {
    ghost use Rattle.std.specs.Prelude.{◌≡◌, ◌≤◌, ◌-◌, ◌+◌, ◌^◌, ◌++◌, length, count_by, vec_len, vec_capacity};
    ghost use Rattle.vg_history.specs.Lines.{is_on_first, is_on_second};
    ghost use Rattle.vg_history.specs.Growth.{Grown};

    ghost Value = { Grown M M.State M.Act M.ActReply M.Request M.Reply M.Holds M.Job };

    ghost view = { λ h. record { entries = h.lines ++ h.whole.items; kept = h.kept } };

    ghost invariant = { λ h. (length (h.lines ++ h.whole.items) + h.kept ≤ 2 ^ 31 - 1) × (vec_len h.whole + h.kept ≤ vec_capacity h.whole) × (h.first ≡ count_by (is_on_first M.Machine) (h.lines ++ h.whole.items)) × (h.second ≡ count_by (is_on_second M.Machine) (h.lines ++ h.whole.items)) };
}

impl<M: Machine> Growing<M> {
    /// A history with no entry, and no place kept.
    pub fn new(alloc: Global) -> Growing<M>
        ensures { (result.entries ≡ []) × (result.kept ≡ 0) }
    {
        Growing {
            lines: Lines::new(alloc),
            whole: Vec::new(alloc),
            first: 0,
            second: 0,
            kept: 0,
        }
    }

    /// Whether it has room for an entry beside the places that are kept: a history has fewer than 2^31.
    pub fn has_room(&self) -> bool
        ensures { MatchBool result (length self.now.entries + self.now.kept < 2 ^ 31 - 1) (2 ^ 31 - 1 ≤ length self.now.entries + self.now.kept) }
    {
        self.len() + self.kept < MOST
    }

    fn len(&self) -> usize
        ensures { result ≡ length self.now.entries }
    {
        self.lines.len() + self.whole.len()
    }

    /// Does an act on the machine, and enters it. The answer is its number, from 1, with the reply. For want of memory, or of
    /// room, nothing changes.
    pub fn act(
        &mut self,
        alloc: Global,
        machine: &mut M,
        client: u32,
        call: u64,
        holds: &mut M::Holds,
        act: M::Act,
    ) -> Result<(u64, M::ActReply), AllocError>
        requires count { M.count (M.state machine.old) < 2 ^ 31 - 1 }
        requires blocked { M.blocks_act machine.old act ≡ false }
        ensures entries { IfOk result (λ r. self.new.entries ≡ self.old.entries ++ Act client call act r.1 ∷ []) }
        ensures kept { self.new.kept ≡ self.old.kept }
        ensures number { IfOk result (λ r. r.0 ≡ length self.old.entries + 1) }
        ensures state { IfOk result (λ r. M.state machine.new ≡ M.acted (M.state machine.old) client act) }
        ensures lent { M.lent machine.new ≡ M.lent machine.old }
        ensures reply { IfOk result (λ r. r.1 ≡ M.replied (M.state machine.old) client act) }
        ensures holds { IfOk result (λ r. holds.new ≡ M.update holds.old act r.1) }
        ensures err { OnErr result ((self.new ≡ self.old) × (M.state machine.new ≡ M.state machine.old) × (holds.new ≡ holds.old)) }
    {
        if !self.has_room() {
            return Err(AllocError);
        }
        self.whole.reserve(self.kept + 1)?;
        let (reply, copy) = machine.act(alloc, client, holds, &act)?;
        enter(
            &mut self.lines,
            &mut self.whole,
            Entry::Act {
                client,
                call,
                act,
                reply,
            },
        );
        Ok((self.len() as u64, copy))
    }

    /// Has the machine run a request as a whole, and enters it; or has it lend the request's job, and keeps a place for the
    /// entry. The answer is the entry's place, from 0, with the reply, or the job with the request. For want of memory, or of
    /// room, the request comes back, and nothing changes.
    pub fn begin(
        &mut self,
        alloc: Global,
        machine: &mut M,
        client: u32,
        call: u64,
        request: M::Request,
    ) -> Result<Begun<(M::Job, M::Request), (u64, M::Reply)>, M::Request>
        requires count { M.count (M.state machine.old) < 2 ^ 31 - 1 }
        requires blocked { M.blocks machine.old request ≡ false }
        requires lane { of_lane (lane_by M.asked M.tagged) (M.tagged request).0 (M.lent machine.old) ≡ [] }
        ensures entered { IfOk result (λ b. IfWhole b (λ r. (self.new.entries ≡ self.old.entries ++ Command client call request r.1 ∷ []) × (self.new.kept ≡ self.old.kept) × (r.0 ≡ length self.old.entries))) }
        ensures whole { IfOk result (λ b. IfWhole b (λ r. (M.state machine.new ≡ M.requested (M.state machine.old) request) × (M.lent machine.new ≡ M.lent machine.old) × (r.1 ≡ M.answered (M.state machine.old) request))) }
        ensures kept { IfOk result (λ b. IfLent b (λ j. (self.new.entries ≡ self.old.entries) × (self.new.kept ≡ self.old.kept + 1))) }
        ensures job { IfOk result (λ b. IfLent b (λ j. (M.state machine.new ≡ M.state machine.old) × (M.lent machine.new ≡ j.0 ∷ M.lent machine.old) × (M.asked j.0 ≡ request) × (j.1 ≡ request))) }
        ensures err { IfErr result (λ q. (q ≡ request) × (self.new ≡ self.old) × (M.state machine.new ≡ M.state machine.old) × (M.lent machine.new ≡ M.lent machine.old)) }
    {
        if !self.has_room() || self.whole.reserve(self.kept + 1).is_err() {
            return Err(request);
        }
        match machine.begin(alloc, &request) {
            Ok(Begun::Whole((reply, copy))) => {
                let place = self.len() as u64;
                let entry = Entry::Command {
                    client,
                    call,
                    request,
                    reply,
                };
                let (first, second) = counts_of(&entry);
                enter(&mut self.lines, &mut self.whole, entry);
                self.first += first;
                self.second += second;
                Ok(Begun::Whole((place, copy)))
            }
            Ok(Begun::Lent(job)) => {
                self.kept += 1;
                Ok(Begun::Lent((job, request)))
            }
            Err(_) => Err(request),
        }
    }

    /// Brings back a job that was worked: has the machine run its request, and enters it in the place that is kept. The answer
    /// is the place, from 0, with the reply.
    pub fn end(
        &mut self,
        machine: &mut M,
        client: u32,
        call: u64,
        request: M::Request,
        job: M::Job,
    ) -> (u64, M::Reply)
        requires count { M.count (M.state machine.old) ≡ length self.old.entries }
        requires kept { 0 < self.old.kept }
        requires lent { IsBack M.worked (M.lent machine.old) job }
        requires asked { M.asked job ≡ request }
        ensures entries { self.new.entries ≡ self.old.entries ++ Command client call request result.1 ∷ [] }
        ensures kept { self.new.kept + 1 ≡ self.old.kept }
        ensures place { result.0 ≡ length self.old.entries }
        ensures room { length self.old.entries < 2 ^ 31 - 1 }
        ensures state { M.state machine.new ≡ M.requested (M.state machine.old) request }
        ensures lent { M.lent machine.new ≡ but_lane (lane_by M.asked M.tagged) (M.tagged request).0 (M.lent machine.old) }
        ensures reply { result.1 ≡ M.answered (M.state machine.old) request }
    {
        self.kept -= 1;
        let (reply, copy) = machine.end(job);
        let place = self.len() as u64;
        let entry = Entry::Command {
            client,
            call,
            request,
            reply,
        };
        let (first, second) = counts_of(&entry);
        enter(&mut self.lines, &mut self.whole, entry);
        self.first += first;
        self.second += second;
        (place, copy)
    }

    /// The history, once it grows no more.
    pub fn finish(self) -> History<M>
        ensures { result ≡ self.entries }
    {
        let Growing {
            lines,
            whole,
            first,
            second,
            kept: _,
        } = self;
        History {
            lines,
            whole,
            first,
            second,
        }
    }
}
