//! The turn: who takes it has the machine and the history until it is given back.

ghost use Rattle.std.specs.Prelude.{◌≡◌, ◌<◌, ◌-◌, ◌^◌, true, false, MatchBool, [], ◌∷◌, length};
ghost use Rattle.vg_book.specs.declared.board.Slot.TheVariants.{Held};
ghost use Rattle.vg_book.specs.Tells.{HasLooked, HasTaken};
ghost use Rattle.vg_book.specs.Turns.{IsAt, MayTake, Watches, HasTurn, IsReady, IsReadyTo};

use crate::board::{Board, Place};
use crate::plays::{Give, Look, Take};
use crossbeam_utils::Backoff;
use std::sync::Wait;
use vg_history::Machine;

/// Sees the whole history.
pub(crate) fn look<M: Machine>(table: &Board<M>, seat: &mut Place<M>)
    requires table { IsAt table.now.shared.table_id seat.old.table_id }
    ensures id { seat.new.table_id ≡ seat.old.table_id }
    ensures looked { HasLooked M.Machine seat.old.me seat.new.me }
{
    table.shared.load::<Look>(seat, 0);
}

/// Takes the turn, if it is free and there is room for an entry.
fn try_turn<M: Machine>(table: &Board<M>, seat: &mut Place<M>) -> bool
    requires table { IsAt table.now.shared.table_id seat.old.table_id }
    requires seat { MayTake seat.old.me }
    requires clear { seat.old.me.0.outs ≡ [] }
    ensures id { seat.new.table_id ≡ seat.old.table_id }
    ensures taken { MatchBool result (HasTurn M.Machine seat.old.me seat.new.me) (Watches seat.old.me seat.new.me) }
{
    if table.shared.compare_exchange::<Take>(seat, 0, 0, 1) != 0 {
        return false;
    }
    if has_room(table, seat) {
        return true;
    }
    table.shared.store::<Give>(seat, 0, 0);
    false
}

/// Whether the history, which the seat has in hand, has room for an entry.
fn has_room<M: Machine>(table: &Board<M>, seat: &mut Place<M>) -> bool
    requires table { IsAt table.now.shared.table_id seat.old.table_id }
    requires hand { (c : _) × (seat.old.me.1 ≡ (0, Held c) ∷ []) }
    ensures id { seat.new.table_id ≡ seat.old.table_id }
    ensures same { seat.new.me ≡ seat.old.me }
    ensures room { (c : _) → seat.old.me.1 ≡ (0, Held c) ∷ [] → result ≡ true → length c.history.entries < 2 ^ 31 - 1 }
{
    let slot = seat.slot_mut(&table.shared, 0);
    slot.has_room()
}

/// Takes the turn once it is free and there is room for an entry. A full history is waited on without end.
fn take_turn<M: Machine, R: Wait>(rt: &R, table: &Board<M>, seat: &mut Place<M>)
    requires table { IsAt table.now.shared.table_id seat.old.table_id }
    requires seat { MayTake seat.old.me }
    requires clear { seat.old.me.0.outs ≡ [] }
    ensures id { seat.new.table_id ≡ seat.old.table_id }
    ensures taken { HasTurn M.Machine seat.old.me seat.new.me }
{
    let backoff = Backoff::new();
    for _ in rt.forever() {
        if try_turn(table, seat) {
            return;
        }
        backoff.snooze();
    }
    unreachable!()
}

/// Whether no job that is out of the machine, which the seat has in hand, stands in the way of the request.
fn is_open<M: Machine>(table: &Board<M>, seat: &mut Place<M>, request: &M::Request) -> bool
    requires table { IsAt table.now.shared.table_id seat.old.table_id }
    requires hand { (c : _) × (seat.old.me.1 ≡ (0, Held c) ∷ []) }
    ensures id { seat.new.table_id ≡ seat.old.table_id }
    ensures same { seat.new.me ≡ seat.old.me }
    ensures unblocked { (c : _) → seat.old.me.1 ≡ (0, Held c) ∷ [] → result ≡ true → M.blocks c.machine request.now ≡ false }
{
    let slot = seat.slot_mut(&table.shared, 0);
    slot.is_open(request)
}

/// The same of an act.
fn is_open_to<M: Machine>(table: &Board<M>, seat: &mut Place<M>, act: &M::Act) -> bool
    requires table { IsAt table.now.shared.table_id seat.old.table_id }
    requires hand { (c : _) × (seat.old.me.1 ≡ (0, Held c) ∷ []) }
    ensures id { seat.new.table_id ≡ seat.old.table_id }
    ensures same { seat.new.me ≡ seat.old.me }
    ensures unblocked { (c : _) → seat.old.me.1 ≡ (0, Held c) ∷ [] → result ≡ true → M.blocks_act c.machine act.now ≡ false }
{
    let slot = seat.slot_mut(&table.shared, 0);
    slot.is_open_to(act)
}

/// Takes the turn once no job that is out stands in the way of the request. It is given back until then, and waited on
/// without end.
pub(crate) fn take_turn_for<M: Machine, R: Wait>(
    rt: &R,
    table: &Board<M>,
    seat: &mut Place<M>,
    request: &M::Request,
)
    requires table { IsAt table.now.shared.table_id seat.old.table_id }
    requires seat { MayTake seat.old.me }
    requires clear { seat.old.me.0.outs ≡ [] }
    ensures id { seat.new.table_id ≡ seat.old.table_id }
    ensures ready { IsReady M.Machine request.now seat.old.me seat.new.me }
{
    let backoff = Backoff::new();
    for _ in rt.forever() {
        take_turn(rt, table, seat);
        if is_open(table, seat, request) {
            return;
        }
        table.shared.store::<Give>(seat, 0, 0);
        backoff.snooze();
    }
    unreachable!()
}

/// The same for an act.
pub(crate) fn take_turn_to<M: Machine, R: Wait>(
    rt: &R,
    table: &Board<M>,
    seat: &mut Place<M>,
    act: &M::Act,
)
    requires table { IsAt table.now.shared.table_id seat.old.table_id }
    requires seat { MayTake seat.old.me }
    requires clear { seat.old.me.0.outs ≡ [] }
    ensures id { seat.new.table_id ≡ seat.old.table_id }
    ensures ready { IsReadyTo M.Machine act.now seat.old.me seat.new.me }
{
    let backoff = Backoff::new();
    for _ in rt.forever() {
        take_turn(rt, table, seat);
        if is_open_to(table, seat, act) {
            return;
        }
        table.shared.store::<Give>(seat, 0, 0);
        backoff.snooze();
    }
    unreachable!()
}

/// Takes the turn, if it is free, to bring back what is lent: the place for its entry is kept.
fn try_back<M: Machine>(table: &Board<M>, seat: &mut Place<M>) -> bool
    requires table { IsAt table.now.shared.table_id seat.old.table_id }
    requires seat { MayTake seat.old.me }
    ensures id { seat.new.table_id ≡ seat.old.table_id }
    ensures taken { MatchBool result (HasTaken M.Machine seat.old.me seat.new.me) (seat.new.me ≡ seat.old.me) }
{
    let found = table.shared.compare_exchange::<Take>(seat, 0, 0, 1);
    found == 0
}

/// Takes the turn once it is free, to bring back what is lent.
pub(crate) fn take_turn_back<M: Machine, R: Wait>(rt: &R, table: &Board<M>, seat: &mut Place<M>)
    requires table { IsAt table.now.shared.table_id seat.old.table_id }
    requires seat { MayTake seat.old.me }
    ensures id { seat.new.table_id ≡ seat.old.table_id }
    ensures taken { HasTaken M.Machine seat.old.me seat.new.me }
{
    let backoff = Backoff::new();
    for _ in rt.forever() {
        if try_back(table, seat) {
            return;
        }
        backoff.snooze();
    }
    unreachable!()
}
