//! Which two rings a device has, and which queue each of them is.

ghost use Rattle.std.specs.Prelude.{[]};
ghost use Rattle.atomic_table.specs.Seated.{TableId};
ghost use Rattle.vg_wire.specs.declared.request.Queue.{Queue as Queues};
ghost use Rattle.vg_wire.specs.declared.request.Queue.TheVariants as queues;

use crate::naming::Naming;
use std::marker::{Brand, PhantomData};

/// Which two rings they are. Each call of a program picks them.
pub trait Rings {
    ghost control: { TableId };

    ghost cursor: { TableId };
}

impl Rings for Brand {
    ghost control = { record { words = 10; slots = 2; views_name = 0; atom = 0; block = 0; offset = 0; slot_names = [] } };

    ghost cursor = { record { words = 10; slots = 2; views_name = 0; atom = 0; block = 0; offset = 0; slot_names = [] } };
}

/// The name of a ring of one queue.
pub trait OfQueue {
    ghost queue: { Queues };
}

/// The name of the ring of the control queue.
#[derive(Drop)]
pub struct ControlOf<N: Rings> {
    of: PhantomData<N>,
}

impl<N: Rings> Naming for ControlOf<N> {
    ghost ring = { N.control };
}

impl<N: Rings> OfQueue for ControlOf<N> {
    ghost queue = { queues.Control };
}

/// The name of the ring of the cursor queue.
#[derive(Drop)]
pub struct CursorOf<N: Rings> {
    of: PhantomData<N>,
}

impl<N: Rings> Naming for CursorOf<N> {
    ghost ring = { N.cursor };
}

impl<N: Rings> OfQueue for CursorOf<N> {
    ghost queue = { queues.Cursor };
}
