//! The rule of a ring's table.

ghost use Rattle.vg_split.specs.declared.views.View.TheVariants.{Start};
ghost use Rattle.vg_split.specs.Rule.{Ring};

use crate::views::View;
use atomic_table::{Seat, Table, TableRule};
use std::alloc::Global;
use vg_cargo::Cargo;
use vg_history::Tagged;
use vg_wire::Queue;

/// What a table is told once: which queue it is, and how many descriptors that has.
#[derive(Clone, Copy)]
pub struct Size {
    pub queue: Queue,
    pub count: u16,
}

pub enum Law {}

pub type Line<P> = Table<Option<Cargo<P>>, View, Size, Law, Global>;

pub type Pass<P> = Seat<Option<Cargo<P>>, View>;

impl<P: Tagged> TableRule<Option<Cargo<P>>, View, Size> for Law {
    ghost holds = { λ size. Ring P.is_wanted size.queue size.count };

    ghost first = { λ size. Start size.queue };
}
