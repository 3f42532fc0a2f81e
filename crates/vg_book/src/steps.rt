//! An act entered, and a command run, each under the turn. What a command has lent is worked while the turn is free.

ghost use Rattle.std.specs.Prelude.{◌≡◌, ℕ, ◌+◌, ◌-◌, ◌^◌, ◌<◌, true, false, [], ◌∷◌, length, IfOk, IfErr, OnErr};
ghost use Rattle.vg_history.specs.Lists.{Has};
ghost use Rattle.vg_history.specs.Begins.{IfLent, IfWhole};
ghost use Rattle.vg_book.specs.declared.board.Slot.TheVariants.{Held};
ghost use Rattle.vg_book.specs.HandsWithin.{IsSameCore, IsLaneClear, ActsOn, RunsWhole, Lends, EndsOn};
ghost use Rattle.vg_book.specs.Tells.{HasLooked};
ghost use Rattle.vg_book.specs.Turns.{IsAt, Sits, SitsOut, IsClientSeat, EntersAct, RunsOrder, HasBegun, own};

use crate::board::{Board, Counted, Order, Place};
use crate::plays::{Answer, Enter, Give, Lend};
use crate::turn::{take_turn_back, take_turn_for, take_turn_to};
use std::alloc::{AllocError, Global};
use std::sync::Wait;
use vg_history::{Begun, Machine};

/// A client's number, and how many call numbers it has drawn.
#[derive(Clone, Copy)]
pub(crate) struct Caller {
    pub(crate) number: u32,
    pub(crate) used: u64,
}

/// Does the act on the machine that the seat has in hand.
fn act_in_hand<M: Machine>(
    alloc: Global,
    table: &Board<M>,
    seat: &mut Place<M>,
    client: u32,
    call: u64,
    holds: &mut M::Holds,
    act: M::Act,
) -> Result<(u64, M::ActReply), AllocError>
    requires table { IsAt table.now.shared.table_id seat.old.table_id }
    requires hand { (c : _) × (seat.old.me.1 ≡ (0, Held c) ∷ []) × (M.count (M.state c.machine) < 2 ^ 31 - 1) × (M.blocks_act c.machine act ≡ false) }
    ensures id { seat.new.table_id ≡ seat.old.table_id }
    ensures view { seat.new.me.0 ≡ seat.old.me.0 }
    ensures ok { IfOk result (λ r. (c : _) → seat.old.me.1 ≡ (0, Held c) ∷ [] → (d : _) × (seat.new.me.1 ≡ (0, Held d) ∷ []) × ActsOn M.Machine c client call holds.old act d holds.new r.0 r.1) }
    ensures err { OnErr result ((c : _) → seat.old.me.1 ≡ (0, Held c) ∷ [] → (d : _) × (seat.new.me.1 ≡ (0, Held d) ∷ []) × IsSameCore M.Machine c d × (holds.new ≡ holds.old)) }
{
    let slot = seat.slot_mut(&table.shared, 0);
    slot.act(alloc, client, call, holds, act)
}

/// Runs the request on the machine that the seat has in hand, or has its job lent.
fn begin_in_hand<M: Machine>(
    alloc: Global,
    table: &Board<M>,
    seat: &mut Place<M>,
    order: Order<M>,
) -> Result<Begun<(M::Job, M::Request), (u64, M::Reply)>, M::Request>
    requires table { IsAt table.now.shared.table_id seat.old.table_id }
    requires hand { (c : _) × (seat.old.me.1 ≡ (0, Held c) ∷ []) × (M.count (M.state c.machine) < 2 ^ 31 - 1) × (M.blocks c.machine order.request ≡ false) × IsLaneClear M.Machine c order.request }
    ensures id { seat.new.table_id ≡ seat.old.table_id }
    ensures view { seat.new.me.0 ≡ seat.old.me.0 }
    ensures whole { IfOk result (λ b. IfWhole b (λ r. (c : _) → seat.old.me.1 ≡ (0, Held c) ∷ [] → (d : _) × (seat.new.me.1 ≡ (0, Held d) ∷ []) × RunsWhole M.Machine c order.client order.call order.request d r.0 r.1)) }
    ensures lent { IfOk result (λ b. IfLent b (λ j. (j.1 ≡ order.request) × ((c : _) → seat.old.me.1 ≡ (0, Held c) ∷ [] → (d : _) × (seat.new.me.1 ≡ (0, Held d) ∷ []) × Lends M.Machine c order.request d j.0))) }
    ensures err { IfErr result (λ q. (q ≡ order.request) × ((c : _) → seat.old.me.1 ≡ (0, Held c) ∷ [] → (d : _) × (seat.new.me.1 ≡ (0, Held d) ∷ []) × IsSameCore M.Machine c d)) }
{
    let Order {
        client,
        call,
        request,
    } = order;
    let slot = seat.slot_mut(&table.shared, 0);
    slot.begin(alloc, client, call, request)
}

/// Brings the request's job back to the machine that the seat has in hand, and enters the request.
fn end_in_hand<M: Machine>(
    table: &Board<M>,
    seat: &mut Place<M>,
    order: Order<M>,
    job: M::Job,
) -> (u64, M::Reply)
    requires table { IsAt table.now.shared.table_id seat.old.table_id }
    requires hand { (c : _) × (seat.old.me.1 ≡ (0, Held c) ∷ []) × (M.count (M.state c.machine) ≡ length c.history.entries) × (0 < c.history.kept) × ((i : M.Job) × Has (M.lent c.machine) i × (job ≡ M.worked i)) }
    requires asked { M.asked job ≡ order.request }
    ensures id { seat.new.table_id ≡ seat.old.table_id }
    ensures view { seat.new.me.0 ≡ seat.old.me.0 }
    ensures ends { (c : _) → seat.old.me.1 ≡ (0, Held c) ∷ [] → (d : _) × (seat.new.me.1 ≡ (0, Held d) ∷ []) × EndsOn M.Machine c order.client order.call order.request d result.0 result.1 }
{
    let Order {
        client,
        call,
        request,
    } = order;
    let slot = seat.slot_mut(&table.shared, 0);
    slot.end(client, call, request, job)
}

/// Enters an act of the client whose seat it is, under its next number. For want of memory the seat has at most seen more.
pub(crate) fn enter<M: Machine, R: Wait>(
    rt: &R,
    alloc: Global,
    table: &Board<M>,
    seat: &mut Place<M>,
    caller: Caller,
    holds: &mut M::Holds,
    act: M::Act,
) -> Result<(u64, M::ActReply), AllocError>
    requires table { IsAt table.now.shared.table_id seat.old.table_id }
    requires client { IsClientSeat M.Machine seat.old.me caller.number caller.used holds.old }
    requires number { caller.used < 2 ^ 64 - 1 }
    requires gives { M.ends_hold act ≡ true → (own M.Machine caller.number holds.old seat.old.me).out ≡ [] }
    ensures id { seat.new.table_id ≡ seat.old.table_id }
    ensures ok { IfOk result (λ r. EntersAct M.Machine (own M.Machine caller.number holds.old seat.old.me) act seat.old.me seat.new.me holds.new r.0 r.1) }
    ensures err { OnErr result (HasLooked M.Machine seat.old.me seat.new.me × (holds.new ≡ holds.old)) }
{
    take_turn_to(rt, table, seat, &act);
    match act_in_hand(
        alloc,
        table,
        seat,
        caller.number,
        caller.used + 1,
        holds,
        act,
    ) {
        Ok(done) => {
            table.shared.store::<Enter>(seat, 0, 0);
            Ok(done)
        }
        Err(none) => {
            table.shared.store::<Give>(seat, 0, 0);
            Err(none)
        }
    }
}

/// Runs the pass that the lane's seat has, and answers its place, or has its job lent, and answers the job with the request.
/// For want of memory the request comes back, and the seat has at most seen more.
fn start<M: Machine, R: Wait>(
    rt: &R,
    alloc: Global,
    table: &Board<M>,
    seat: &mut Place<M>,
    lane: Counted,
    order: Order<M>,
) -> Result<Begun<(M::Job, M::Request), (u64, M::Reply)>, M::Request>
    requires table { IsAt table.now.shared.table_id seat.old.table_id }
    requires lane { Sits seat.old.me [] (lane ∷ []) (order ∷ []) [] false }
    requires tag { M.tagged order.request ≡ (lane.lane, lane.count + 1) }
    ensures id { seat.new.table_id ≡ seat.old.table_id }
    ensures whole { IfOk result (λ b. IfWhole b (λ r. RunsOrder M.Machine lane order seat.old.me seat.new.me r.0 r.1)) }
    ensures lent { IfOk result (λ b. IfLent b (λ j. (j.1 ≡ order.request) × (M.asked j.0 ≡ order.request) × HasBegun M.Machine j.0 seat.old.me seat.new.me)) }
    ensures err { IfErr result (λ q. (q ≡ order.request) × HasLooked M.Machine seat.old.me seat.new.me) }
{
    take_turn_for(rt, table, seat, &order.request);
    match begin_in_hand(alloc, table, seat, order) {
        Ok(Begun::Whole(done)) => {
            table.shared.store::<Answer>(seat, 0, 0);
            Ok(Begun::Whole(done))
        }
        Ok(Begun::Lent(lent)) => {
            table.shared.store::<Lend>(seat, 0, 0);
            Ok(Begun::Lent(lent))
        }
        Err(request) => {
            table.shared.store::<Give>(seat, 0, 0);
            Err(request)
        }
    }
}

/// Brings back the job of the pass that the lane's seat has, once it was worked, and answers the command's place. It takes no
/// memory.
fn bring_back<M: Machine, R: Wait>(
    rt: &R,
    table: &Board<M>,
    seat: &mut Place<M>,
    lane: Counted,
    order: Order<M>,
    job: M::Job,
) -> (u64, M::Reply)
    requires table { IsAt table.now.shared.table_id seat.old.table_id }
    requires lane { (j : M.Job) × SitsOut seat.old.me [] (lane ∷ []) (order ∷ []) [] false (j ∷ []) × (job ≡ M.worked j) × (M.asked j ≡ order.request) }
    requires tag { M.tagged order.request ≡ (lane.lane, lane.count + 1) }
    ensures id { seat.new.table_id ≡ seat.old.table_id }
    ensures runs { RunsOrder M.Machine lane order seat.old.me seat.new.me result.0 result.1 }
{
    take_turn_back(rt, table, seat);
    let done = end_in_hand(table, seat, order, job);
    table.shared.store::<Answer>(seat, 0, 0);
    done
}

/// Runs the pass that the lane's seat has, and answers its place. For want of memory the request comes back, and the seat
/// has at most seen more.
pub(crate) fn answer<M: Machine, R: Wait>(
    rt: &R,
    alloc: Global,
    table: &Board<M>,
    seat: &mut Place<M>,
    lane: Counted,
    order: Order<M>,
) -> Result<(u64, M::Reply), M::Request>
    requires table { IsAt table.now.shared.table_id seat.old.table_id }
    requires lane { Sits seat.old.me [] (lane ∷ []) (order ∷ []) [] false }
    requires tag { M.tagged order.request ≡ (lane.lane, lane.count + 1) }
    ensures id { seat.new.table_id ≡ seat.old.table_id }
    ensures ok { IfOk result (λ r. RunsOrder M.Machine lane order seat.old.me seat.new.me r.0 r.1) }
    ensures err { IfErr result (λ q. (q ≡ order.request) × HasLooked M.Machine seat.old.me seat.new.me) }
{
    let client = order.client;
    let call = order.call;
    match start(rt, alloc, table, seat, lane, order) {
        Ok(Begun::Whole(done)) => Ok(done),
        Ok(Begun::Lent((job, request))) => {
            let mut job = job;
            M::work(&mut job);
            let order = Order {
                client,
                call,
                request,
            };
            Ok(bring_back(rt, table, seat, lane, order, job))
        }
        Err(request) => Err(request),
    }
}
