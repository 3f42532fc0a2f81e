//! Passes, on their way out and on their way back.

ghost use Rattle.std.specs.Prelude.{◌≡◌, ◌<◌, ◌-◌, ◌^◌, false, [], ◌∷◌};
ghost use Rattle.vg_history.specs.History.{HasFence};
ghost use Rattle.vg_history.specs.Lists.{Has};
ghost use Rattle.vg_book.specs.Turns.{Sits, order};
ghost use Rattle.vg_book.specs.Tokens.{pass_value, done_value, finished_of, DoneOk};
ghost use Rattle.vg_book.specs.Views.{entry_of};

use crate::board::{Naming, Place};
use crate::book::Book;
use crate::note::Note;
use crate::seats::twin;
use std::marker::{Model, PhantomData};
use std::snapshot::Snapshot;
use vg_history::Machine;

/// A pass for a client's request, which is to be run on its lane. The request itself goes another way: only contracts read
/// here which it is.
#[derive(Drop)]
pub struct Pass<M: Machine, B: Naming> {
    client: u32,
    call: u64,
    request: Snapshot<M::Request>,
    lane: u32,
    ordinal: u64,
    seat: Place<M>,
    of: PhantomData<B>,
}

impl<M: Machine, B: Naming> Model for Pass<M, B> {
    ghost use Rattle.std.specs.Prelude.{◌≡◌, false, [], ◌∷◌};
    ghost use Rattle.vg_book.specs.Turns.{Sits, order};
    ghost use Rattle.vg_book.specs.Tokens.{Passed, pass_value};

    ghost Value = { Passed M M.State M.Act M.ActReply M.Request M.Reply M.Holds M.Job };

    ghost view = { λ t. pass_value M.Machine t.client t.call t.request.value t.seat.me };

    ghost invariant = { λ t. (t.seat.table_id ≡ B.table) × Sits t.seat.me [] [] (order M.Machine t.client t.call t.request.value ∷ []) [] false × (M.tagged t.request.value ≡ (t.lane, t.ordinal)) };
}

/// A pass whose request was run. Its reply goes another way, as the request did.
#[derive(Drop)]
pub struct DonePass<M: Machine, B: Naming> {
    client: u32,
    call: u64,
    request: Snapshot<M::Request>,
    lane: u32,
    ordinal: u64,
    reply: Snapshot<M::Reply>,
    place: u64,
    seat: Place<M>,
    of: PhantomData<B>,
}

impl<M: Machine, B: Naming> Model for DonePass<M, B> {
    ghost use Rattle.std.specs.Prelude.{◌≡◌};
    ghost use Rattle.vg_book.specs.Tokens.{Done, done_value, DoneOk};

    ghost Value = { Done M M.State M.Act M.ActReply M.Request M.Reply M.Holds M.Job };

    ghost view = { λ t. done_value M.Machine t.client t.call t.request.value t.reply.value t.place t.seat.me };

    ghost invariant = { λ t. (t.seat.table_id ≡ B.table) × DoneOk M.Machine t.client t.call t.request.value t.reply.value t.place t.lane t.ordinal t.seat.me };
}

impl<M: Machine, B: Naming> Pass<M, B> {
    /// The number of the client that made it.
    pub fn client(&self) -> u32
        ensures { result ≡ self.now.order.client }
    {
        self.client
    }

    /// The client's number for it.
    pub fn call(&self) -> u64
        ensures { result ≡ self.now.order.call }
    {
        self.call
    }

    /// The lane of its request, and the ordinal there.
    pub fn tag(&self) -> (u32, u64)
        ensures { result ≡ M.tagged self.now.order.request }
    {
        (self.lane, self.ordinal)
    }

    pub(crate) fn of(
        client: u32,
        call: u64,
        request: Snapshot<M::Request>,
        tag: (u32, u64),
        seat: Place<M>,
    ) -> Pass<M, B>
        requires seat { (seat.table_id ≡ B.table) × Sits seat.me [] [] (order M.Machine client call request.value ∷ []) [] false }
        requires tag { M.tagged request.value ≡ tag }
        ensures { result ≡ pass_value M.Machine client call request.value seat.me }
    {
        Pass {
            client,
            call,
            request,
            lane: tag.0,
            ordinal: tag.1,
            seat,
            of: PhantomData,
        }
    }

    pub(crate) fn into_seat(self) -> Place<M>
        ensures ok { (result.table_id ≡ B.table) × Sits result.me [] [] (self.order ∷ []) [] false }
        ensures value { (self.seen ≡ result.me.0.seen) × (self.start ≡ result.me.0.start) }
    {
        let Pass { seat, .. } = self;
        seat
    }

    /// The client, its number for the call, the request, which is handed in, and the seat.
    pub(crate) fn into_parts(self, request: M::Request) -> (u32, u64, M::Request, Place<M>)
        requires { request ≡ self.order.request }
        ensures ok { (result.3.table_id ≡ B.table) × Sits result.3.me [] [] (order M.Machine result.0 result.1 result.2 ∷ []) [] false }
        ensures value { self ≡ pass_value M.Machine result.0 result.1 result.2 result.3.me }
    {
        let Pass {
            client,
            call,
            seat,
            ..
        } = self;
        (client, call, request, seat)
    }
}

impl<M: Machine, B: Naming> DonePass<M, B> {
    /// A law, and no work: what the reply writes into the room is read as the reply.
    pub fn can_be_read(&self)
        ensures { M.read self.now.order.request (M.written self.now.order.request self.now.reply) ≡ self.now.reply }
    {
        prove!(self.place <= self.place);
    }

    /// The number of the client that made it.
    pub fn client(&self) -> u32
        ensures { result ≡ self.now.order.client }
    {
        self.client
    }

    /// The client's number for it.
    pub fn call(&self) -> u64
        ensures { result ≡ self.now.order.call }
    {
        self.call
    }

    /// The lane of its request, and the ordinal there, up to which it knows the lane's commands.
    pub fn tag(&self) -> (u32, u64)
        ensures tag { result ≡ M.tagged self.now.order.request }
        ensures fence { HasFence M.Machine result.0 result.1 self.now.seen }
    {
        (self.lane, self.ordinal)
    }

    /// A note that has seen the same: among it are its entry, and all commands of the lane up to that.
    pub fn note(&mut self, book: &Book<M, B>) -> Note<M, B>
        ensures same { self.new ≡ self.old }
        ensures note { (result.seen ≡ self.old.seen) × (result.start ≡ self.old.start) }
        ensures entry { Has result.seen (entry_of (finished_of M.Machine self.old)) }
        ensures fence { HasFence M.Machine (M.tagged self.old.order.request).0 (M.tagged self.old.order.request).1 result.seen }
    {
        Note::of(twin(&book.table, &mut self.seat))
    }

    pub(crate) fn of(
        client: u32,
        call: u64,
        request: Snapshot<M::Request>,
        tag: (u32, u64),
        reply: &M::Reply,
        place: u64,
        seat: Place<M>,
    ) -> DonePass<M, B>
        requires { (seat.table_id ≡ B.table) × DoneOk M.Machine client call request.value reply.now place tag.0 tag.1 seat.me }
        ensures { result ≡ done_value M.Machine client call request.value reply.now place seat.me }
    {
        DonePass {
            client,
            call,
            request,
            lane: tag.0,
            ordinal: tag.1,
            reply: Snapshot::of(reply),
            place,
            seat,
            of: PhantomData,
        }
    }

    /// The place, and the seat.
    pub(crate) fn into_parts(self) -> (u64, Place<M>)
        ensures id { result.1.table_id ≡ B.table }
        ensures room { result.0 < 2 ^ 31 - 1 }
        ensures sits { Sits result.1.me [] [] [] (finished_of M.Machine self ∷ []) false }
        ensures value { (result.0 ≡ self.place) × (self.seen ≡ result.1.me.0.seen) × (self.start ≡ result.1.me.0.start) }
    {
        let DonePass { place, seat, .. } = self;
        (place, seat)
    }
}
