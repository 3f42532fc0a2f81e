//! Publishing a cargo at given places.

ghost use Rattle.std.specs.Prelude.{◌≡◌, ◌+◌, ◌*◌, ◌<◌, ◌≤◌, []};
ghost use Rattle.vg_split.specs.declared.views.View.TheVariants.{Driver};
ghost use Rattle.vg_cargo.specs.Entries.{published_as};
ghost use Rattle.vg_split.specs.Tells.{IsSendable};
ghost use Rattle.vg_split.specs.Plays.{driver_of, resting_driver};
ghost use Rattle.vg_split.specs.Rule.{published_after};

use crate::driver::{lay, offer};
use crate::law::{Line, Pass};
use vg_cargo::Cargo;
use vg_chain::Shape;
use vg_history::Tagged;

/// Publishes a cargo whose descriptors go to these places, the head first. So many were published before.
pub fn send<P: Tagged>(
    line: &Line<P>,
    pass: &mut Pass<P>,
    size: u16,
    published: u64,
    shape: Shape,
    places: &[u16],
    cargo: Cargo<P>,
)
    requires line { (pass.old.table_id ≡ line.now.shared.table_id) × (line.now.shared.table_id.words ≡ 2 + 4 * size) × (line.now.shared.key.count ≡ size) }
    requires size { 0 < size }
    requires view { pass.old.me ≡ (resting_driver pass.old.me.0, []) }
    requires cargo { IsSendable P.is_wanted line.now.shared.key.queue size (driver_of pass.old.me.0) published shape places.now cargo }
    ensures line { (pass.new.table_id ≡ pass.old.table_id) × (pass.new.id ≡ pass.old.id) }
    ensures view { pass.new.me ≡ (Driver (published_after (driver_of pass.old.me.0) (published_as places.now cargo)), []) }
{
    let extent = cargo.extent();
    let head = places[0];
    lay(line, pass, size, shape, &extent, places);
    offer(line, pass, size, published, head, cargo);
}
