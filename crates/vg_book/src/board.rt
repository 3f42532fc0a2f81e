//! The table behind a book, and what each seat at it knows.
//!
//! Word 0 is the turn: 0 where it is free, 1 where somebody has it. The one slot holds the machine and the history, and is
//! at home while the turn is free.

ghost use Rattle.std.specs.Prelude.{[]};
ghost use Rattle.atomic_table.specs.Seated.{TableId};

use atomic_table::{Seat, Table, TableRule};
use std::alloc::Global;
use std::collections::LinkedList;
use std::marker::{Brand, PhantomData};
use std::snapshot::Snapshot;
use vg_history::{Entry, Growing, Machine};

/// The machine, and its history so far.
#[derive(Drop)]
pub struct Core<M: Machine> {
    pub machine: M,
    pub history: Growing<M>,
}

/// What the slot holds, or what a step is told. At home it is always `Held`.
#[derive(Drop)]
pub enum Slot<M: Machine> {
    Held(Core<M>),
    Told(Snapshot<M::Holds>),
    Asked(Snapshot<M::Request>),
}

/// A request that a client made under one of its numbers.
pub struct Order<M: Machine> {
    pub client: u32,
    pub call: u64,
    pub request: M::Request,
}

/// An order that was run, with its reply and its entry's place in the history, from 0.
pub struct Finished<M: Machine> {
    pub order: Order<M>,
    pub reply: M::Reply,
    pub place: u64,
}

/// What a client knows of its own calls. Of this struct, `Finished` and `View` no value is made: only contracts read them.
pub struct Account<M: Machine> {
    pub number: u32,
    /// What it held before its first act, and holds now.
    pub opening: M::Holds,
    pub holds: M::Holds,
    /// How many call numbers it has drawn.
    pub used: u64,
    /// Its acts, and its commands that it has taken back.
    pub mine: LinkedList<Entry<M>>,
    /// Its requests that it hasn't taken back.
    pub out: LinkedList<Order<M>>,
    /// The numbers of its requests that came back unrun.
    pub spent: LinkedList<u64>,
}

/// How many commands of a lane were run.
#[derive(Clone, Copy)]
pub struct Counted {
    pub lane: u32,
    pub count: u64,
}

/// What a seat knows, and what it has.
pub struct View<M: Machine> {
    /// The state before the history.
    pub start: Option<M::State>,
    /// A beginning of the history, and another that the seat was handed last.
    pub seen: LinkedList<Entry<M>>,
    pub heard: LinkedList<Entry<M>>,
    pub accounts: LinkedList<Account<M>>,
    pub lanes: LinkedList<Counted>,
    pub passes: LinkedList<Order<M>>,
    pub dones: LinkedList<Finished<M>>,
    /// Of the root's seat: how many clients and lanes it has made, and what the next client holds.
    pub is_root: bool,
    pub given: u32,
    pub lanes_made: u32,
    pub told: Option<M::Holds>,
    /// It has the turn.
    pub holding: bool,
    /// The jobs that it has out; while it has the turn, all that are out of the machine.
    pub outs: LinkedList<M::Job>,
}

/// The rule of the table.
pub struct Law<M> {
    machine: PhantomData<M>,
}

/// The machine as it was before the history.
pub type Key<M> = Snapshot<M>;

impl<M: Machine> TableRule<Slot<M>, View<M>, Snapshot<M>> for Law<M> {
    ghost use Rattle.vg_book.specs.Views.{first_view};
    ghost use Rattle.vg_book.specs.Kept.{Kept};

    ghost holds = { λ key s. Kept M.Machine (M.state key.value) s };

    ghost first = { λ key. first_view (M.state key.value) };
}

pub type Board<M> = Table<Slot<M>, View<M>, Snapshot<M>, Law<M>, Global>;

pub type Place<M> = Seat<Slot<M>, View<M>>;

/// Which book it is. Each call of a program picks it.
pub trait Naming {
    ghost table: { TableId };
}

impl Naming for Brand {
    ghost table = { record { words = 1; slots = 1; views_name = 0; atom = 0; block = 0; offset = 0; slot_names = [] } };
}
