//! The root: it makes the clients, and takes all tokens in at the end.

ghost use Rattle.std.specs.Prelude.{◌≡◌, ◌+◌, ◌-◌, ◌^◌, ◌<◌, true, [], ◌∷◌, ◌++◌, Some, IfOk};
ghost use Rattle.vg_book.specs.Views.{first_view};
ghost use Rattle.vg_book.specs.Turns.{counted};
ghost use Rattle.vg_book.specs.Opening.{first_lanes, opening_root, next_lane, with_lanes};
ghost use Rattle.vg_book.specs.Tokens.{MakesClient, TakesIn, RootOk, root_value};

use crate::board::{Naming, Place};
use crate::book::Book;
use crate::client::ClientToken;
use crate::lane::LaneToken;
use crate::note::Note;
use crate::seats::{join, make_client, make_lane};
use crate::turn::look;
use std::alloc::{AllocError, Global};
use std::marker::{Model, PhantomData};
use vg_history::Machine;

/// What makes clients, and what must have all tokens for the book to be closed.
#[derive(Drop)]
pub struct Root<M: Machine, B: Naming> {
    given: u32,
    lanes_made: u32,
    seat: Place<M>,
    of: PhantomData<B>,
}

impl<M: Machine, B: Naming> Model for Root<M, B> {
    ghost use Rattle.std.specs.Prelude.{◌≡◌};
    ghost use Rattle.vg_book.specs.Tokens.{Rooted, root_value, RootOk};

    ghost Value = { Rooted M M.State M.Act M.ActReply M.Request M.Reply M.Holds M.Job };

    ghost view = { λ t. root_value M.Machine t.given t.lanes_made t.seat.me };

    ghost invariant = { λ t. (t.seat.table_id ≡ B.table) × RootOk M.Machine t.given t.lanes_made t.seat.me };
}

impl<M: Machine, B: Naming> Root<M, B> {
    /// Makes the next client, which holds this. Clients have the numbers 1, 2, 3. It waits for nobody.
    pub fn client(&mut self, book: &Book<M, B>, holds: M::Holds) -> ClientToken<M, B>
        requires { self.old.given < 2 ^ 32 - 1 }
        ensures { MakesClient M.Machine self.old holds self.new result }
    {
        let seat = make_client(&book.table, &mut self.seat, &holds);
        self.given += 1;
        ClientToken::of(self.given, holds, seat)
    }

    /// Takes in a client with nothing outstanding.
    pub fn join(&mut self, book: &Book<M, B>, token: ClientToken<M, B>)
        requires { token.account.out ≡ [] }
        ensures told { TakesIn M.Machine self.old token.seen self.new }
        ensures accounts { self.new.accounts ≡ self.old.accounts ++ token.account ∷ [] }
        ensures lanes { self.new.lanes ≡ self.old.lanes }
    {
        join(&book.table, &mut self.seat, token.into_seat());
        look(&book.table, &mut self.seat);
    }

    /// Takes in a lane.
    pub fn join_lane(&mut self, book: &Book<M, B>, token: LaneToken<M, B>)
        ensures told { TakesIn M.Machine self.old token.seen self.new }
        ensures accounts { self.new.accounts ≡ self.old.accounts }
        ensures lanes { self.new.lanes ≡ self.old.lanes ++ counted M.Machine token.lane token.count ∷ [] }
    {
        join(&book.table, &mut self.seat, token.into_seat());
        look(&book.table, &mut self.seat);
    }

    /// Sees all that the note has seen.
    pub fn join_note(&mut self, book: &Book<M, B>, note: Note<M, B>)
        ensures told { TakesIn M.Machine self.old note.seen self.new }
        ensures accounts { self.new.accounts ≡ self.old.accounts }
        ensures lanes { self.new.lanes ≡ self.old.lanes }
    {
        join(&book.table, &mut self.seat, note.into_seat());
        look(&book.table, &mut self.seat);
    }

    /// Makes the next lane.
    fn lane(&mut self, book: &Book<M, B>) -> LaneToken<M, B>
        requires { self.old.lanes_made < 2 ^ 32 - 1 }
        ensures root { self.new ≡ with_lanes (self.old.lanes_made + 1) self.old }
        ensures lane { result ≡ next_lane self.old }
    {
        let lane = self.lanes_made;
        let seat = make_lane(&book.table, &mut self.seat);
        self.lanes_made += 1;
        LaneToken::of(lane, seat)
    }

    /// Makes the first lanes.
    pub(crate) fn make_lanes(
        &mut self,
        alloc: Global,
        book: &Book<M, B>,
        lanes: u32,
    ) -> Result<Vec<LaneToken<M, B>>, AllocError>
        requires { (self.old.lanes_made ≡ 0) × (self.old.seen ≡ []) }
        ensures { IfOk result (λ v. (self.new ≡ with_lanes lanes self.old) × (v.items ≡ first_lanes self.old.start lanes)) }
    {
        let mut tokens = Vec::new(alloc);
        for _lane in 0..lanes {
            let token = self.lane(book);
            tokens.push(token)?;
        }
        Ok(tokens)
    }

    pub(crate) fn of(seat: Place<M>) -> Root<M, B>
        requires { (seat.table_id ≡ B.table) × RootOk M.Machine 0 0 seat.me }
        ensures { result ≡ root_value M.Machine 0 0 seat.me }
    {
        Root {
            given: 0,
            lanes_made: 0,
            seat,
            of: PhantomData,
        }
    }

    pub(crate) fn into_seat(self) -> Place<M>
        ensures ok { (result.table_id ≡ B.table) × RootOk M.Machine self.given self.lanes_made result.me }
        ensures value { self ≡ root_value M.Machine self.given self.lanes_made result.me }
    {
        let Root { seat, .. } = self;
        seat
    }
}
