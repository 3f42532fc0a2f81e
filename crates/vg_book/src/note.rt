//! A note: what was seen, to be handed on.

ghost use Rattle.std.specs.Prelude.{◌≡◌, false, []};
ghost use Rattle.vg_book.specs.Turns.{Sits};
ghost use Rattle.vg_book.specs.Tokens.{MeetsNote, note_value};

use crate::board::{Naming, Place};
use crate::book::Book;
use crate::seats::{join, twin};
use crate::turn::look;
use std::marker::{Model, PhantomData};
use vg_history::Machine;

/// A beginning of the history that somebody has seen.
#[derive(Drop)]
pub struct Note<M: Machine, B: Naming> {
    seat: Place<M>,
    of: PhantomData<B>,
}

impl<M: Machine, B: Naming> Model for Note<M, B> {
    ghost use Rattle.std.specs.Prelude.{◌≡◌, false, []};
    ghost use Rattle.vg_book.specs.Turns.{Sits};
    ghost use Rattle.vg_book.specs.Tokens.{Noted, note_value};

    ghost Value = { Noted M M.State M.Act M.ActReply M.Request M.Reply M.Holds M.Job };

    ghost view = { λ t. note_value M.Machine t.seat.me };

    ghost invariant = { λ t. (t.seat.table_id ≡ B.table) × Sits t.seat.me [] [] [] [] false };
}

impl<M: Machine, B: Naming> Note<M, B> {
    /// A second note that has seen the same.
    pub fn note(&mut self, book: &Book<M, B>) -> Note<M, B>
        ensures same { self.new ≡ self.old }
        ensures note { result ≡ self.old }
    {
        Note::of(twin(&book.table, &mut self.seat))
    }

    /// Sees all that the other note has seen.
    pub fn meet(&mut self, book: &Book<M, B>, note: Note<M, B>)
        ensures { MeetsNote M.Machine self.old note self.new }
    {
        join(&book.table, &mut self.seat, note.into_seat());
        look(&book.table, &mut self.seat);
    }

    pub(crate) fn of(seat: Place<M>) -> Note<M, B>
        requires { (seat.table_id ≡ B.table) × Sits seat.me [] [] [] [] false }
        ensures { result ≡ note_value M.Machine seat.me }
    {
        Note {
            seat,
            of: PhantomData,
        }
    }

    pub(crate) fn into_seat(self) -> Place<M>
        ensures ok { (result.table_id ≡ B.table) × Sits result.me [] [] [] [] false }
        ensures value { self ≡ note_value M.Machine result.me }
    {
        let Note { seat, of: _ } = self;
        seat
    }
}
