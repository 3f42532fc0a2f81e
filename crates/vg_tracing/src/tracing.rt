//! The entries of a legal journal, gone over once more for the clients of each byte.

ghost use Rattle.std.specs.Prelude.{◌≤◌, ◌<◌, ◌+◌, ◌-◌, ◌^◌, length, IfOk, OnOk};
ghost use Rattle.vg_journal.specs.declared.journal.Journal.{Journal};
ghost use Rattle.vg_journal_lines.specs.Pieces.{JournalInRange};
ghost use Rattle.vg_judge.specs.Outline.{IsOutline};
ghost use Rattle.vg_judge.specs.Verdicts.{IsLegal};
ghost use Rattle.vg_tracing.specs.Origins.{AreClientsOf};
ghost use Rattle.vg_tracing.specs.TracingWithin.{AreTraced};

use std::alloc::{AllocError, Global};
use vg_drawn::{Drawn, a_frames_clients_are_of_its_tags};
use vg_judge::{Entries, Outline};

/// For each frame of a legal journal the set of the clients who stored the bytes that it shows.
pub(crate) fn traced(alloc: Global, bytes: &[u8], outline: &Outline) -> Result<Vec<u64>, AllocError>
    requires journal { (journal : Journal) × JournalInRange journal × IsOutline bytes.now journal outline.now }
    requires few { outline.now.entries ≤ 2 ^ 31 - 1 }
    ensures { IfOk result (λ sets. (journal : Journal) → JournalInRange journal → IsOutline bytes.now journal outline.now → IsLegal journal
        → AreClientsOf journal sets.items) }
{
    a_frames_clients_are_of_its_tags();
    let mut entries = Entries::new(alloc, bytes, outline);
    let mut drawn = Drawn::new(alloc, &outline.setup)?;
    for n in 0..outline.entries {
        trace(alloc, n, &mut entries, &mut drawn)?;
    }
    Ok(drawn.into_frames())
}

/// Goes over entry number n, from 0.
fn trace(
    alloc: Global,
    n: u64,
    entries: &mut Entries<'_>,
    drawn: &mut Drawn,
) -> Result<(), AllocError>
    requires journal { (journal : Journal) × JournalInRange journal × (length journal.entries ≤ 2 ^ 31 - 1) × (n < length journal.entries)
        × AreTraced journal n entries.old drawn.old }
    ensures { OnOk result ((journal : Journal) → JournalInRange journal → length journal.entries ≤ 2 ^ 31 - 1 → n < length journal.entries
        → AreTraced journal n entries.old drawn.old → AreTraced journal (n + 1) entries.new drawn.new) }
{
    let entry = entries.next(alloc)?;
    drawn.next(alloc, &entry)
}
