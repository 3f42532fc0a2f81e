//! Which ring an end belongs to.

ghost use Rattle.std.specs.Prelude.{[]};
ghost use Rattle.atomic_table.specs.Seated.{TableId};

use std::marker::Brand;

/// Which ring it is. Each call of a program picks it.
pub trait Naming {
    ghost ring: { TableId };
}

impl Naming for Brand {
    ghost ring = { record { words = 10; slots = 2; views_name = 0; atom = 0; block = 0; offset = 0; slot_names = [] } };
}
