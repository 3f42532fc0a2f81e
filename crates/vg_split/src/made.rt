//! Making a ring.

ghost use Rattle.std.specs.Prelude.{◌≡◌, ◌+◌, ◌*◌, ◌<◌, ◌≤◌, [], ◌∷◌, IfOk, replicate};
ghost use Rattle.vg_split.specs.declared.views.View.TheVariants.{Driver, Device};
ghost use Rattle.vg_split.specs.Rule.{new_driver, new_device};

use crate::law::{Line, Pass, Size};
use crate::plays::CutsEnds;
use atomic_table::Table;
use std::alloc::{AllocError, Global};
use vg_history::Tagged;
use vg_wire::Queue;

/// As many words, all of them 0.
fn zero_words(alloc: Global, count: usize) -> Result<Vec<u64>, AllocError>
    ensures { IfOk result (λ words. words.items ≡ replicate count 0) }
{
    vec![in alloc; 0u64; count]
}

/// The table of a ring of this size, and the seats of its two ends.
pub fn make_line<P: Tagged>(
    alloc: Global,
    queue: Queue,
    count: u16,
) -> Result<(Line<P>, Pass<P>, Pass<P>), AllocError>
    ensures table { IfOk result (λ t. (t.0.shared.table_id.words ≡ 2 + 4 * count) × (t.0.shared.table_id.slots ≡ count) × (t.0.shared.key ≡ record { queue = queue; count = count })) }
    ensures seats { IfOk result (λ t. (t.1.table_id ≡ t.0.shared.table_id) × (t.2.table_id ≡ t.0.shared.table_id)) }
    ensures views { IfOk result (λ t. (t.1.me ≡ (Driver new_driver, [])) × (t.2.me ≡ (Device (new_device queue), []))) }
{
    let words = zero_words(alloc, 2 + 4 * count as usize)?;
    let (line, mut driver) = Table::vacant(
        alloc,
        words.as_slice(),
        count as usize,
        &Size { queue, count },
    )?;
    let device = line.shared.split_seat::<CutsEnds>(&mut driver);
    Ok((line, driver, device))
}
