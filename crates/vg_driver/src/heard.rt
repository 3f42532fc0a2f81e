//! How far a lane's commands have come back.

ghost use Rattle.std.specs.Prelude.{◌≡◌, ◌≢◌, false, nat_le, None, IfOk, MatchResult, OnOk};
ghost use mathlib.Core.List.{IsPrefix};
ghost use Rattle.vg_book.specs.Outcomes.{tag_of};
ghost use Rattle.vg_book.specs.Tokens.{Watched};
ghost use Rattle.vg_driver.specs.Halves.{HasHeard, Hears, Signals, seen_by, unheard};

use std::alloc::AllocError;
use std::marker::Model;
use vg_book::{Book, Carried, ClientToken, Naming, Note, Root};
use vg_history::{Fence, Machine};

/// A lane's greatest ordinal that came back, run or not, a note that knows the lane's commands up to some ordinal and all that
/// came back of it run, and whether something came back unrun.
#[derive(Drop)]
pub(crate) struct Heard<M: Machine, B: Naming> {
    lane: u32,
    top: u64,
    known: u64,
    note: Option<Note<M, B>>,
    unrun: bool,
}

impl<M: Machine, B: Naming> Model for Heard<M, B> {
    ghost use Rattle.vg_driver.specs.Halves.{HeardData, NoteKnows};

    ghost Value = { HeardData M M.State M.Act M.ActReply M.Request M.Reply M.Holds M.Job };

    ghost view = { λ h. record { lane = h.lane; top = h.top; known = h.known; note = h.note; unrun = h.unrun } };

    ghost invariant = { λ h. NoteKnows M.Machine h.lane h.known h.note };
}

impl<M: Machine, B: Naming> Heard<M, B> {
    /// A lane of which nothing came back.
    pub(crate) fn new(lane: u32) -> Heard<M, B>
        ensures { result ≡ unheard lane }
    {
        Heard {
            lane,
            top: 0,
            known: 0,
            note: None,
            unrun: false,
        }
    }

    /// A command of the lane came back.
    pub(crate) fn hear(&mut self, book: &Book<M, B>, pass: &mut Carried<M, B>, ordinal: u64)
        requires { tag_of M.Machine pass.old ≡ (self.old.lane, ordinal) }
        ensures hears { Hears M.Machine self.old pass.old ordinal self.new }
        ensures same { pass.new ≡ pass.old }
    {
        self.top = ordinal.max(self.top);
        match pass {
            Carried::Done(done) => {
                self.note = Some(with_known(book, done.note(book), self.note.take()));
                self.known = ordinal.max(self.known);
            }
            Carried::Wanted(_) | Carried::Unrun(_) => self.unrun = true,
        }
    }

    /// Whether the command of a fence of this lane came back: then the client sees all commands of the lane up to it. It answers
    /// want of memory where something of the lane up to there came back unrun.
    pub(crate) fn signal(
        &mut self,
        book: &Book<M, B>,
        token: &mut ClientToken<M, B>,
        fence: &Fence,
    ) -> Result<bool, AllocError>
        requires { fence.now.lane ≡ self.old.lane }
        ensures told { MatchResult result (λ b. Signals M.Machine token.old fence.now b token.new) (λ _. token.new ≡ token.old) }
        ensures exactly { IfOk result (λ b. b ≡ nat_le fence.now.ordinal self.old.top) }
        ensures same { self.new ≡ self.old }
    {
        let ordinal = fence.ordinal();
        if self.top < ordinal {
            return Ok(false);
        }
        if self.known < ordinal {
            return Err(AllocError);
        }
        meet_known(book, token, &mut self.note);
        Ok(true)
    }

    /// The root sees what the lane's note has seen. It answers want of memory where something of the lane came back unrun.
    pub(crate) fn join(self, book: &Book<M, B>, root: &mut Root<M, B>) -> Result<(), AllocError>
        ensures root { HasHeard root.old root.new }
        ensures seen { IsPrefix (seen_by self.note) root.new.seen }
        ensures run { OnOk result (self.unrun ≡ false) }
    {
        let Heard { note, unrun, .. } = self;
        join_known(book, root, note);
        if unrun {
            return Err(AllocError);
        }
        Ok(())
    }
}

/// The note, once it has seen what was known before.
fn with_known<M: Machine, B: Naming>(
    book: &Book<M, B>,
    note: Note<M, B>,
    known: Option<Note<M, B>>,
) -> Note<M, B>
    ensures note { IsPrefix note.seen result.seen }
    ensures known { IsPrefix (seen_by known) result.seen }
{
    let mut note = note;
    if let Some(known) = known {
        note.meet(book, known);
    }
    note
}

/// The client sees what is known.
fn meet_known<M: Machine, B: Naming>(
    book: &Book<M, B>,
    token: &mut ClientToken<M, B>,
    known: &mut Option<Note<M, B>>,
)
    requires { known.old ≢ None }
    ensures watched { Watched M.Machine token.old token.new }
    ensures seen { IsPrefix (seen_by known.old) token.new.seen }
    ensures same { known.new ≡ known.old }
{
    if let Some(known) = known {
        token.meet(book, known.note(book));
    }
}

/// The root sees what is known.
fn join_known<M: Machine, B: Naming>(
    book: &Book<M, B>,
    root: &mut Root<M, B>,
    known: Option<Note<M, B>>,
)
    ensures root { HasHeard root.old root.new }
    ensures seen { IsPrefix (seen_by known) root.new.seen }
{
    if let Some(known) = known {
        root.join_note(book, known);
    }
}
