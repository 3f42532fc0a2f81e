//! A client: it acts, makes passes, and takes back what was run.

ghost use Rattle.std.specs.Prelude.{◌≡◌, ℕ, ◌+◌, ◌-◌, ◌^◌, ◌<◌, true, false, [], ◌∷◌, length, MatchResult};
ghost use Rattle.vg_book.specs.Turns.{Sits};
ghost use Rattle.vg_book.specs.Tokens.{ClientOk, client_value, Acted, Watched, Drawn, TakesBack, TakesUnrun, Meets};

use crate::board::{Naming, Place};
use crate::book::Book;
use crate::note::Note;
use crate::pass::{DonePass, Pass};
use crate::seats::{draw, give_up, hand, join, settle, twin};
use crate::steps::{Caller, enter};
use crate::turn::look;
use crossbeam_utils::Backoff;
use std::alloc::{AllocError, Global};
use std::marker::{Model, PhantomData};
use std::snapshot::Snapshot;
use std::sync::Wait;
use vg_history::Machine;

/// A client of the book.
///
/// Its calls have the numbers 1, 2, 3. Each number that was drawn is that of an entry that it knows, or of a pass that
/// hasn't come back, or of one that came back unrun.
#[derive(Drop)]
pub struct ClientToken<M: Machine, B: Naming> {
    number: u32,
    used: u64,
    outstanding: u64,
    holds: M::Holds,
    seat: Place<M>,
    of: PhantomData<B>,
}

impl<M: Machine, B: Naming> Model for ClientToken<M, B> {
    ghost use Rattle.std.specs.Prelude.{◌≡◌};
    ghost use Rattle.vg_book.specs.Tokens.{Client, client_value, ClientOk};

    ghost Value = { Client M M.State M.Act M.ActReply M.Request M.Reply M.Holds M.Job };

    ghost view = { λ t. client_value M.Machine t.number t.holds t.seat.me };

    ghost invariant = { λ t. (t.seat.table_id ≡ B.table) × ClientOk M.Machine t.number t.used t.outstanding t.holds t.seat.me };
}

/// The next number, for which so many were drawn. Past the last it waits without end.
fn next_call<R: Wait>(rt: &R, used: u64)
    ensures { used < 2 ^ 64 - 1 }
{
    if used < u64::MAX {
        return;
    }
    let backoff = Backoff::new();
    for _ in rt.forever() {
        backoff.snooze();
    }
    unreachable!()
}

impl<M: Machine, B: Naming> ClientToken<M, B> {
    /// The client's number, from 1.
    pub fn number(&self) -> u32
        ensures { result ≡ self.now.account.number }
    {
        self.number
    }

    /// What it holds.
    pub fn holds(&self) -> &M::Holds
        ensures { result.now ≡ self.now.account.holds }
    {
        &self.holds
    }

    /// How many of its passes haven't come back.
    pub fn outstanding(&self) -> u64
        ensures { result ≡ length self.now.account.out }
    {
        self.outstanding
    }

    /// How many call numbers it has drawn.
    pub fn used(&self) -> u64
        ensures { result ≡ self.now.account.used }
    {
        self.used
    }

    /// Acts on the machine, and gives the entry's number, from 1, and the reply. It waits for the turn. For want of memory
    /// no entry is added, and no number is used. An act that gives up what the client holds needs that nothing is
    /// outstanding.
    pub fn act<R: Wait>(
        &mut self,
        rt: &R,
        alloc: Global,
        book: &Book<M, B>,
        act: M::Act,
    ) -> Result<(u64, M::ActReply), AllocError>
        requires gives { M.ends_hold act ≡ true → self.old.account.out ≡ [] }
        ensures { MatchResult result (λ r. Acted M.Machine self.old act self.new r.0 r.1) (λ _. Watched M.Machine self.old self.new) }
    {
        next_call(rt, self.used);
        let caller = Caller {
            number: self.number,
            used: self.used,
        };
        let done = enter(
            rt,
            alloc,
            &book.table,
            &mut self.seat,
            caller,
            &mut self.holds,
            act,
        )?;
        self.used += 1;
        Ok(done)
    }

    /// Makes a pass for a request that the client's holds allow, under its next number. It waits for nobody.
    pub fn pass(&mut self, book: &Book<M, B>, request: &M::Request) -> Pass<M, B>
        requires allowed { M.allows self.old.account.holds request.now ≡ true }
        requires last { self.old.account.used < 2 ^ 63 - 1 }
        ensures { Drawn M.Machine self.old request.now self.new result }
    {
        self.pass_of(book, Snapshot::of(request), M::tag(request))
    }

    /// The same for a request of this tag that need not be at hand: it may stand elsewhere already.
    pub fn pass_of(
        &mut self,
        book: &Book<M, B>,
        request: Snapshot<M::Request>,
        tag: (u32, u64),
    ) -> Pass<M, B>
        requires tag { M.tagged request.value ≡ tag }
        requires allowed { M.allows self.old.account.holds request.value ≡ true }
        requires last { self.old.account.used < 2 ^ 63 - 1 }
        ensures { Drawn M.Machine self.old request.value self.new result }
    {
        let request = draw(&book.table, &mut self.seat, request);
        let seat = hand(&book.table, &mut self.seat);
        self.used += 1;
        self.outstanding += 1;
        Pass::of(self.number, self.used, request, tag, seat)
    }

    /// Takes back a pass of this client that was run, and gives the entry's number, from 1.
    pub fn take_back(&mut self, book: &Book<M, B>, done: DonePass<M, B>) -> u64
        requires { done.order.client ≡ self.old.account.number }
        ensures back { TakesBack M.Machine self.old done self.new }
        ensures number { result ≡ done.place + 1 }
    {
        let (place, seat) = done.into_parts();
        join(&book.table, &mut self.seat, seat);
        settle(&book.table, &mut self.seat);
        self.outstanding -= 1;
        place + 1
    }

    /// Takes back a pass of this client that wasn't run. Its number is spent.
    pub fn take_unrun(&mut self, book: &Book<M, B>, pass: Pass<M, B>)
        requires { pass.order.client ≡ self.old.account.number }
        ensures { TakesUnrun M.Machine self.old pass self.new }
    {
        let seat = pass.into_seat();
        join(&book.table, &mut self.seat, seat);
        give_up(&book.table, &mut self.seat);
        self.outstanding -= 1;
    }

    pub(crate) fn of(number: u32, holds: M::Holds, seat: Place<M>) -> ClientToken<M, B>
        requires { (seat.table_id ≡ B.table) × ClientOk M.Machine number 0 0 holds seat.me }
        ensures { result ≡ client_value M.Machine number holds seat.me }
    {
        ClientToken {
            number,
            used: 0,
            outstanding: 0,
            holds,
            seat,
            of: PhantomData,
        }
    }

    pub(crate) fn into_seat(self) -> Place<M>
        ensures ok { (result.table_id ≡ B.table) × Sits result.me (self.account ∷ []) [] [] [] false }
        ensures value { self.seen ≡ result.me.0.seen }
    {
        let ClientToken { seat, .. } = self;
        seat
    }

    /// A note that has seen the same.
    pub fn note(&mut self, book: &Book<M, B>) -> Note<M, B>
        ensures same { self.new ≡ self.old }
        ensures note { (result.seen ≡ self.old.seen) × (result.start ≡ self.old.start) }
    {
        Note::of(twin(&book.table, &mut self.seat))
    }

    /// Sees all that the note has seen.
    pub fn meet(&mut self, book: &Book<M, B>, note: Note<M, B>)
        ensures { Meets M.Machine self.old note self.new }
    {
        join(&book.table, &mut self.seat, note.into_seat());
        look(&book.table, &mut self.seat);
    }
}
