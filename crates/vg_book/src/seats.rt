//! The steps of a seat that need no turn.

ghost use Rattle.std.specs.Prelude.{◌≡◌, true, false, [], ◌∷◌};
ghost use Rattle.vg_book.specs.Views.{emptied, handed, noted, joined, with_client, client_made, with_lane, lane_made, telling, drawing, IsAsked};
ghost use Rattle.vg_book.specs.Kept.{Shown};
ghost use Rattle.vg_book.specs.Tells.{HasSettled, HasReturned};
ghost use Rattle.vg_book.specs.Turns.{IsAt, Sits};

use crate::board::{Board, Place, Slot};
use crate::plays::{All, Draw, Hand, MakeClient, MakeLane, Return, Settle, Tell, Twin};
use std::snapshot::Snapshot;
use vg_history::Machine;

/// A seat that has seen the same, and has nothing.
pub(crate) fn twin<M: Machine>(table: &Board<M>, seat: &mut Place<M>) -> Place<M>
    requires table { IsAt table.now.shared.table_id seat.old.table_id }
    ensures id { (seat.new.table_id ≡ seat.old.table_id) × (result.table_id ≡ seat.old.table_id) }
    ensures same { seat.new.me ≡ seat.old.me }
    ensures noted { result.me ≡ (noted seat.old.me.0, []) }
{
    table.shared.split_seat::<Twin>(seat)
}

/// What the seat carries goes to a new one.
pub(crate) fn hand<M: Machine>(table: &Board<M>, seat: &mut Place<M>) -> Place<M>
    requires table { IsAt table.now.shared.table_id seat.old.table_id }
    ensures id { (seat.new.table_id ≡ seat.old.table_id) × (result.table_id ≡ seat.old.table_id) }
    ensures left { seat.new.me ≡ (emptied seat.old.me.0, seat.old.me.1) }
    ensures right { result.me ≡ (handed seat.old.me.0, []) }
{
    table.shared.split_seat::<Hand>(seat)
}

/// The root's seat makes the next lane.
pub(crate) fn make_lane<M: Machine>(table: &Board<M>, seat: &mut Place<M>) -> Place<M>
    requires table { IsAt table.now.shared.table_id seat.old.table_id }
    requires root { seat.old.me.0.is_root ≡ true }
    ensures id { (seat.new.table_id ≡ seat.old.table_id) × (result.table_id ≡ seat.old.table_id) }
    ensures left { seat.new.me ≡ (with_lane seat.old.me.0, seat.old.me.1) }
    ensures right { result.me ≡ (lane_made seat.old.me.0, []) }
{
    table.shared.split_seat::<MakeLane>(seat)
}

/// The root's seat makes the next client, which holds this.
pub(crate) fn make_client<M: Machine>(
    table: &Board<M>,
    seat: &mut Place<M>,
    holds: &M::Holds,
) -> Place<M>
    requires table { IsAt table.now.shared.table_id seat.old.table_id }
    requires root { seat.old.me.0.is_root ≡ true }
    ensures id { (seat.new.table_id ≡ seat.old.table_id) × (result.table_id ≡ seat.old.table_id) }
    ensures made { (log : _) × (seat.new.me ≡ (with_client (telling seat.old.me.0 log holds.now), seat.old.me.1)) × (result.me ≡ (client_made (telling seat.old.me.0 log holds.now), [])) × Shown M.Machine seat.old.me.0 log }
{
    table
        .shared
        .compare_exchange_with::<Tell>(seat, 0, 0, 0, &Slot::Told(Snapshot::of(holds)));
    table.shared.split_seat::<MakeClient>(seat)
}

/// A client's seat draws its next number for the request, and carries the order. The request comes back.
pub(crate) fn draw<M: Machine>(
    table: &Board<M>,
    seat: &mut Place<M>,
    request: Snapshot<M::Request>,
) -> Snapshot<M::Request>
    requires table { IsAt table.now.shared.table_id seat.old.table_id }
    requires client { (a : _) × Sits seat.old.me (a ∷ []) [] [] [] false × (M.allows a.holds request.value ≡ true) }
    ensures id { seat.new.table_id ≡ seat.old.table_id }
    ensures drawn { seat.new.me ≡ (drawing seat.old.me.0 request.value, seat.old.me.1) }
    ensures same { result.value ≡ request.value }
{
    let asked = Slot::Asked(request);
    table
        .shared
        .compare_exchange_with::<Draw>(seat, 0, 0, 0, &asked);
    asked_in(asked)
}

/// The request that is asked for.
fn asked_in<M: Machine>(slot: Slot<M>) -> Snapshot<M::Request>
    requires { (request : M.Request) × IsAsked request slot }
    ensures { IsAsked result.value slot }
{
    match slot {
        Slot::Asked(request) => request,
        Slot::Held(_core) => unreachable!(),
        Slot::Told(_holds) => unreachable!(),
    }
}

/// All that the other seat has goes to this one, which hears what the other has seen.
pub(crate) fn join<M: Machine>(table: &Board<M>, seat: &mut Place<M>, other: Place<M>)
    requires table { IsAt table.now.shared.table_id seat.old.table_id }
    requires other { (other.table_id ≡ seat.old.table_id) × (other.me.1 ≡ []) × (other.me.0.holding ≡ false) }
    requires clear { (seat.old.me.0.outs ≡ []) × (other.me.0.outs ≡ []) }
    ensures id { seat.new.table_id ≡ seat.old.table_id }
    ensures both { seat.new.me ≡ (joined seat.old.me.0 other.me.0, seat.old.me.1) }
{
    table.shared.join_seat::<All>(seat, other);
}

/// A client's seat settles an order of it that was run.
pub(crate) fn settle<M: Machine>(table: &Board<M>, seat: &mut Place<M>)
    requires table { IsAt table.now.shared.table_id seat.old.table_id }
    requires client { (a : _) × (f : _) × Sits seat.old.me (a ∷ []) [] [] (f ∷ []) false × (f.order.client ≡ a.number) }
    ensures id { seat.new.table_id ≡ seat.old.table_id }
    ensures settled { HasSettled M.Machine seat.old.me seat.new.me }
{
    table.shared.load::<Settle>(seat, 0);
}

/// A client's seat gives up an order of it that came back unrun.
pub(crate) fn give_up<M: Machine>(table: &Board<M>, seat: &mut Place<M>)
    requires table { IsAt table.now.shared.table_id seat.old.table_id }
    requires client { (a : _) × (o : _) × Sits seat.old.me (a ∷ []) [] (o ∷ []) [] false × (o.client ≡ a.number) }
    ensures id { seat.new.table_id ≡ seat.old.table_id }
    ensures given_up { HasReturned M.Machine seat.old.me seat.new.me }
{
    table.shared.load::<Return>(seat, 0);
}
