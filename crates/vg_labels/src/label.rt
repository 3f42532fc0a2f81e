//! A label, which threads share: one of them gives it, once, and the others wait for it.

ghost use Rattle.std.specs.Prelude.{◌≡◌, Some, IfSome};
ghost use Rattle.vg_book.specs.Places.{HasCall};
ghost use Rattle.vg_labels.specs.declared.label.Gift.TheVariants as gifts;
ghost use Rattle.vg_labels.specs.Labels.{IsNoted, Shows};

use std::marker::Model;
use std::sync::{Mutex, OnceLock, OnceToken, Wait};
use vg_book::{Book, Naming, Note};
use vg_history::Machine;

/// What a line gives.
#[derive(Clone, Copy)]
pub enum Gift {
    /// The fence of a command that was begun: its lane, and its ordinal there.
    Fence { lane: u32, ordinal: u64 },
    /// The token of a buffer.
    Token { token: u32 },
    /// Nothing: what the line asked was denied, or refused where it begins no command.
    Nothing,
}

/// What a line gave, and the entry with which it did: whose it is, and the client's own number for it.
#[derive(Clone, Copy)]
pub struct Given {
    pub client: u32,
    pub call: u64,
    pub gift: Gift,
}

/// What shows what a label was given. It has no bytes.
pub type Shown<'a> = OnceToken<'a, Option<Given>>;

/// A note that has seen this call of this client.
#[derive(Drop)]
struct Posted<M: Machine, B: Naming> {
    client: u32,
    call: u64,
    note: Note<M, B>,
}

impl<M: Machine, B: Naming> Model for Posted<M, B> {
    ghost use Rattle.vg_book.specs.Places.{HasCall};
    ghost use Rattle.vg_labels.specs.Labels.{PostedView};

    ghost Value = { PostedView M M.State M.Act M.ActReply M.Request M.Reply M.Holds M.Job };

    ghost view = { λ p. record { client = p.client; call = p.call; seen = p.note.seen } };

    ghost invariant = { λ p. HasCall p.note.seen p.client p.call };
}

impl<M: Machine, B: Naming> Posted<M, B> {
    fn of(note: Note<M, B>, client: u32, call: u64) -> Posted<M, B>
        requires { HasCall note.seen client call }
    {
        Posted { client, call, note }
    }

    /// A note that has seen the same, if it is of this call.
    fn note_of(&mut self, book: &Book<M, B>, client: u32, call: u64) -> Option<Note<M, B>>
        ensures { IfSome result (λ note. HasCall note.seen client call) }
    {
        if self.client == client && self.call == call {
            Some(self.note.note(book))
        } else {
            None
        }
    }
}

/// A label: it is given once, or given up.
#[derive(Drop)]
pub struct Label<M: Machine, B: Naming> {
    value: OnceLock<Option<Given>>,
    /// Who gives the label leaves a note here first.
    post: Mutex<Option<Posted<M, B>>>,
}

impl<M: Machine, B: Naming> Model for Label<M, B> {
    ghost use Rattle.std.specs.Prelude.{ℕ};

    // Which label it is.
    ghost Value = { ℕ };

    ghost view = { λ l. l.value.id };
}

impl<M: Machine, B: Naming> Label<M, B> {
    /// A label that nobody has given.
    pub fn new() -> Label<M, B> {
        Label {
            value: OnceLock::new(),
            post: Mutex::new(None),
        }
    }

    /// Gives the label this, with a note that has seen the entry. Nothing where it was given or given up before.
    pub fn give<'a, R: Wait>(&'a self, rt: &R, note: Note<M, B>, given: Given) -> Option<Shown<'a>>
        requires { HasCall note.seen given.client given.call }
        ensures { IfSome result (Shows self.now given) }
    {
        *self.post.lock(rt) = Some(Posted::of(note, given.client, given.call));
        self.value.set(rt, Some(given)).ok()
    }

    /// Gives the label a fence, whose command need not have come back: who waits for the label waits for the fence then. Nothing where it
    /// was given or given up before.
    pub fn give_fence<'a, R: Wait>(
        &'a self,
        rt: &R,
        client: u32,
        call: u64,
        lane: u32,
        ordinal: u64,
    ) -> Option<Shown<'a>>
        ensures { IfSome result (Shows self.now (record { client = client; call = call; gift = gifts.Fence lane ordinal })) }
    {
        let gift = Gift::Fence { lane, ordinal };
        self.value.set(rt, Some(Given { client, call, gift })).ok()
    }

    /// Gives the label up, unless it was given: who waits for it waits no more.
    pub fn give_up<R: Wait>(&self, rt: &R) {
        let _ = self.value.set(rt, None);
    }

    /// Waits until the label is given, and gives what it was given, with a note that has seen the entry where that is no fence; or nothing
    /// where it was given up.
    pub fn wait<'a, R: Wait>(
        &'a self,
        rt: &R,
        book: &Book<M, B>,
    ) -> Option<(Given, Option<Note<M, B>>, Shown<'a>)>
        ensures shown { IfSome result (λ r. Shows self.now r.0 r.2) }
        ensures seen { IfSome result (λ r. IsNoted r.0 r.1) }
    {
        let shown = self.wait_for_value(rt);
        let given = (*self.value.value(&shown))?;
        let note = self.note_for(rt, book, given);
        Some((given, note, shown))
    }

    /// A note that has seen the entry with which this was given, where that is no fence.
    fn note_for<R: Wait>(&self, rt: &R, book: &Book<M, B>, given: Given) -> Option<Note<M, B>>
        ensures { IsNoted given result }
    {
        match given.gift {
            Gift::Fence { .. } => None,
            _ => Some(self.wait_for_note(rt, book, given.client, given.call)),
        }
    }

    fn wait_for_value<'a, R: Wait>(&'a self, rt: &R) -> Shown<'a>
        ensures { result.of ≡ self.now }
    {
        for _ in rt.forever() {
            if let Some(shown) = self.value.witness() {
                return shown;
            }
            self.value.wait(rt);
        }
        unreachable!()
    }

    /// A note that has seen this call of this client, which was left before the label was given.
    fn wait_for_note<R: Wait>(
        &self,
        rt: &R,
        book: &Book<M, B>,
        client: u32,
        call: u64,
    ) -> Note<M, B>
        ensures { HasCall result.seen client call }
    {
        for _ in rt.forever() {
            if let Some(posted) = &mut *self.post.lock(rt) {
                if let Some(note) = posted.note_of(book, client, call) {
                    return note;
                }
            }
        }
        unreachable!()
    }

    /// What shows what the label was given. One that nobody has given is given up.
    pub fn shown<'a, R: Wait>(&'a self, rt: &R) -> Shown<'a>
        ensures { result.of ≡ self.now }
    {
        self.value.init(rt, || None)
    }
}
