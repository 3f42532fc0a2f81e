//! The rule of a bell's table: its words are the published count, the event and the kicks.

ghost use Rattle.vg_notify.specs.declared.views.View.TheVariants.{Start};
ghost use Rattle.vg_notify.specs.Rule.{Holds};

use crate::views::View;
use atomic_table::{Seat, Table, TableRule};
use std::alloc::Global;

pub(crate) enum Law {}

pub(crate) type Line = Table<(), View, (), Law, Global>;

pub(crate) type Pass = Seat<(), View>;

impl TableRule<(), View, ()> for Law {
    ghost holds = { λ _. Holds };

    ghost first = { λ _. Start };
}
