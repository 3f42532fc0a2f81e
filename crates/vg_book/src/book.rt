//! The book itself, as it is opened and closed.

ghost use Rattle.std.specs.Prelude.{◌≡◌, ℕ, [], ◌∷◌, Some, IfOk};
ghost use Rattle.vg_book.specs.Opening.{Begins, first_lanes, opening_root};
ghost use Rattle.vg_book.specs.Tokens.{AllJoined, IsClosed};

use crate::board::{Board, Core, Naming, Place, Slot};
use crate::lane::LaneToken;
use crate::root::Root;
use atomic_table::Table;
use std::alloc::{AllocError, Global};
use std::marker::{Model, PhantomData};
use std::snapshot::Snapshot;
use vg_history::{Growing, History, Machine};

/// A book with no entry, which has no name yet.
#[derive(Drop)]
pub struct Opened<M: Machine> {
    table: Board<M>,
    seat: Place<M>,
    lanes: u32,
}

impl<M: Machine> Model for Opened<M> {
    ghost use Rattle.std.specs.Prelude.{◌≡◌};
    ghost use Rattle.vg_book.specs.Opening.{Begun, OpenedOk, begun_value};

    ghost Value = { Begun M.State };

    ghost view = { λ o. begun_value M.Machine o.table.shared.table_id o.lanes o.seat.me };

    ghost invariant = { λ o. OpenedOk M.Machine o.table.shared.table_id o.seat.table_id o.seat.me };
}

/// What all threads share: whose turn it is, the machine, and the history.
#[derive(Drop)]
pub struct Book<M: Machine, B: Naming> {
    pub(crate) table: Board<M>,
    of: PhantomData<B>,
    ghost named: { table.shared.table_id ≡ B.table },
    ghost sized: { (B.table.words ≡ 1) × (B.table.slots ≡ 1) },
}

impl<M: Machine> Opened<M> {
    /// A book over a machine that has no entry and has lent nothing, which will have so many lanes.
    pub fn new(alloc: Global, machine: M, lanes: u32) -> Result<Opened<M>, AllocError>
        requires count { M.count (M.state machine) ≡ 0 }
        requires lent { M.lent machine ≡ [] }
        ensures { IfOk result (λ o. Begins o (M.state machine) lanes) }
    {
        let about = Snapshot::of(&machine);
        let core = Core {
            machine,
            history: Growing::new(alloc),
        };
        let mut slots = Vec::new(alloc);
        slots.push(Slot::Held(core))?;
        match Table::new(alloc, &[0], slots, &about) {
            Ok((table, seat)) => Ok(Opened { table, seat, lanes }),
            Err(_) => Err(AllocError),
        }
    }

    /// The book under its name, with its root and its lanes.
    pub fn named<B: Naming>(
        self,
        alloc: Global,
    ) -> Result<(Book<M, B>, Root<M, B>, Vec<LaneToken<M, B>>), AllocError>
        requires { self.table ≡ B.table }
        ensures root { IfOk result (λ r. r.1 ≡ opening_root self.start self.lanes) }
        ensures lanes { IfOk result (λ r. r.2.items ≡ first_lanes self.start self.lanes) }
    {
        let Opened { table, seat, lanes } = self;
        let book = Book {
            table,
            of: PhantomData,
        };
        let mut root = Root::of(seat);
        let tokens = root.make_lanes(alloc, &book, lanes)?;
        Ok((book, root, tokens))
    }
}

impl<M: Machine, B: Naming> Book<M, B> {
    /// The machine, from which nothing is lent, and the whole history, once all clients and lanes have joined the root.
    pub fn close(self, root: Root<M, B>) -> (M, History<M>)
        requires { AllJoined M.Machine root }
        ensures closed { IsClosed M.Machine root result.0 result.1 }
        ensures lent { M.lent result.0 ≡ [] }
    {
        let Book { table, of: _ } = self;
        let mut closed = table.close_with(root.into_seat());
        let slot = closed.take(0);
        closed.free();
        let Core { machine, history } = slot.into_core();
        (machine, history.finish())
    }
}
