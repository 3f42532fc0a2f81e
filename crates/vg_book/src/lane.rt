//! A lane: it runs passes, one after another.

ghost use Rattle.std.specs.Prelude.{◌≡◌, ℕ, ◌+◌, false, [], ◌∷◌, MatchResult};
ghost use Rattle.vg_book.specs.Turns.{Sits, counted};
ghost use Rattle.vg_book.specs.Tokens.{lane_value, Ran, Stays};

use crate::board::{Counted, Naming, Order, Place};
use crate::book::Book;
use crate::pass::{DonePass, Pass};
use crate::seats::{hand, join};
use crate::steps::answer;
use std::alloc::Global;
use std::marker::{Model, PhantomData};
use std::snapshot::Snapshot;
use std::sync::Wait;
use vg_history::{Machine, Turn};

/// The right to run the commands of one lane.
#[derive(Drop)]
pub struct LaneToken<M: Machine, B: Naming> {
    lane: u32,
    count: u64,
    seat: Place<M>,
    of: PhantomData<B>,
}

impl<M: Machine, B: Naming> Model for LaneToken<M, B> {
    ghost use Rattle.std.specs.Prelude.{◌≡◌, false, [], ◌∷◌};
    ghost use Rattle.vg_book.specs.Turns.{Sits, counted};
    ghost use Rattle.vg_book.specs.Tokens.{Lane, lane_value};

    ghost Value = { Lane M M.State M.Act M.ActReply M.Request M.Reply M.Holds M.Job };

    ghost view = { λ t. lane_value M.Machine t.lane t.count t.seat.me };

    ghost invariant = { λ t. (t.seat.table_id ≡ B.table) × Sits t.seat.me [] (counted M.Machine t.lane t.count ∷ []) [] [] false };
}

impl<M: Machine, B: Naming> LaneToken<M, B> {
    /// The lane, from 0.
    pub fn lane(&self) -> u32
        ensures { result ≡ self.now.lane }
    {
        self.lane
    }

    /// How many of its commands were run.
    pub fn count(&self) -> u64
        ensures { result ≡ self.now.count }
    {
        self.count
    }

    /// Runs the request of a pass of this lane, whose ordinal is the next, and gives its reply beside the pass. It waits for the
    /// turn. For want of memory the pass comes back, and no entry is added.
    pub fn run<R: Wait>(
        &mut self,
        rt: &R,
        alloc: Global,
        book: &Book<M, B>,
        pass: Pass<M, B>,
        request: M::Request,
    ) -> Result<(DonePass<M, B>, M::Reply), Pass<M, B>>
        requires request { request ≡ pass.order.request }
        requires tag { M.tagged pass.order.request ≡ (self.old.lane, self.old.count + 1) }
        ensures { MatchResult result (λ r. Ran M.Machine self.old pass self.new r.0 × (r.1 ≡ r.0.reply)) (λ back. Stays M.Machine self.old pass self.new back) }
    {
        let (client, call, request, seat) = pass.into_parts(request);
        let asked = Snapshot::of(&request);
        let tag = M::tag(&request);
        join(&book.table, &mut self.seat, seat);
        let lane = Counted {
            lane: self.lane,
            count: self.count,
        };
        let order = Order {
            client,
            call,
            request,
        };
        match answer(rt, alloc, &book.table, &mut self.seat, lane, order) {
            Ok((place, reply)) => {
                self.count += 1;
                let seat = hand(&book.table, &mut self.seat);
                let done = DonePass::of(client, call, asked, tag, &reply, place, seat);
                Ok((done, reply))
            }
            Err(_request) => {
                let seat = hand(&book.table, &mut self.seat);
                Err(Pass::of(client, call, asked, tag, seat))
            }
        }
    }

    pub(crate) fn of(lane: u32, seat: Place<M>) -> LaneToken<M, B>
        requires { (seat.table_id ≡ B.table) × Sits seat.me [] (counted M.Machine lane 0 ∷ []) [] [] false }
        ensures { result ≡ lane_value M.Machine lane 0 seat.me }
    {
        LaneToken {
            lane,
            count: 0,
            seat,
            of: PhantomData,
        }
    }
}

impl<M: Machine, B: Naming> LaneToken<M, B> {
    pub(crate) fn into_seat(self) -> Place<M>
        ensures ok { (result.table_id ≡ B.table) × Sits result.me [] (counted M.Machine self.lane self.count ∷ []) [] [] false }
        ensures value { self.seen ≡ result.me.0.seen }
    {
        let LaneToken { seat, .. } = self;
        seat
    }
}

impl<M: Machine, B: Naming> Turn for LaneToken<M, B> {
    ghost lane_of = { λ t. t.lane };

    ghost count_of = { λ t. t.count };

    fn lane(&self) -> u32 {
        self.lane
    }

    fn count(&self) -> u64 {
        self.count
    }
}
