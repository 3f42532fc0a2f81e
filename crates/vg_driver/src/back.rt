//! What came back of a command, run or unrun.

ghost use Rattle.std.specs.Prelude.{◌≡◌, length};
ghost use Rattle.vg_book.specs.Outcomes.{asks_of, tag_of, told_by};
ghost use Rattle.vg_cargo.specs.Cargo.{Tells, asked_of};
ghost use Rattle.vg_driver.specs.Halves.{Hears};
ghost use Rattle.vg_driver.specs.Halves as halves;

use crate::heard::Heard;
use std::marker::Model;
use vg_book::{Book, Carried, Naming};
use vg_cargo::Cargo;
use vg_chain::Shape;
use vg_history::Machine;

/// The pass of a command that came back, with the shape of its chain and what is in the room for its response. A clause sees the
/// pass alone.
#[derive(Drop)]
pub(crate) struct Back<M: Machine, B: Naming> {
    pass: Carried<M, B>,
    shape: Shape,
    bytes: Vec<u8>,
}

impl<M: Machine, B: Naming> Model for Back<M, B> {
    ghost use Rattle.std.specs.Prelude.{◌≡◌};
    ghost use Rattle.vg_book.specs.declared.outcome.Carried as carried;
    ghost use Rattle.vg_book.specs.Outcomes.{asks_of, told_by};
    ghost use Rattle.vg_cargo.specs.Cargo.{Tells};

    ghost Value = { carried.Carried M B M.State M.Act M.ActReply M.Request M.Reply M.Holds M.Job };

    ghost view = { λ b. b.pass };

    ghost invariant = { λ b. ((asks_of M.Machine b.pass).shape ≡ b.shape) × Tells (told_by M.Machine b.pass) b.bytes.items };
}

impl<M: Machine, B: Naming> Back<M, B> {
    /// What a cargo has brought back, with the used length. It takes no memory.
    pub(crate) fn of(cargo: Cargo<Carried<M, B>>, len: u32) -> Back<M, B>
        requires { length cargo.parcel.response ≡ len }
        ensures pass { result ≡ cargo.pass }
        ensures asked { asks_of M.Machine result ≡ asked_of cargo.parcel }
    {
        let (parcel, pass) = cargo.apart();
        let (shape, bytes) = parcel.into_response(len);
        Back { pass, shape, bytes }
    }

    /// Its lane hears of it.
    pub(crate) fn tell(&mut self, book: &Book<M, B>, heard: &mut Heard<M, B>, ordinal: u64)
        requires { tag_of M.Machine self.old ≡ (heard.old.lane, ordinal) }
        ensures hears { Hears M.Machine heard.old self.old ordinal heard.new }
        ensures same { self.new ≡ self.old }
    {
        heard.hear(book, &mut self.pass, ordinal);
    }

    /// The command's pass, the shape of its chain, and what is in the room.
    pub(crate) fn apart(self) -> (Carried<M, B>, Shape, Vec<u8>)
        ensures pass { result.0 ≡ self }
        ensures shape { (asks_of M.Machine self).shape ≡ result.1 }
        ensures told { Tells (told_by M.Machine self) result.2.items }
    {
        let Back { pass, shape, bytes } = self;
        (pass, shape, bytes)
    }

    /// Whether it came of the client's call.
    pub(crate) fn is_of(&self, client: u32, call: u64) -> bool
        ensures { result ≡ halves.is_of client call self.now }
    {
        match &self.pass {
            Carried::Done(done) => done.client() == client && done.call() == call,
            Carried::Wanted(pass) | Carried::Unrun(pass) => {
                pass.client() == client && pass.call() == call
            }
        }
    }
}
