//! The verdict on a journal.

ghost use Rattle.std.specs.Prelude.{◌≡◌, ◌≤◌, ◌-◌, ◌^◌, ℕ, IfOk};
ghost use Rattle.vg_journal.specs.declared.journal.Journal.{Journal};
ghost use Rattle.vg_journal_lines.specs.Pieces.{JournalInRange};
ghost use Rattle.vg_judge.specs.declared.verdicts.Verdict.TheVariants.{Legal, Wrong};
ghost use Rattle.vg_judge.specs.Outline.{IsOutline};
ghost use Rattle.vg_judge.specs.Verdicts.{IsLegal, IsWrong};

use crate::judging::Judging;
use std::alloc::{AllocError, Global};
use vg_check::right_is_sound;
use vg_machine::Setup;

/// What a journal says beside its entries and frames, and where these stand in its text.
#[derive(Drop)]
pub struct Outline {
    pub setup: Setup,
    /// How many entries there are.
    pub entries: u64,
    /// How many commands the journal counts on the control queue, and on the cursor queue.
    pub control: u64,
    pub cursor: u64,
    /// How many frames there are.
    pub frames: u64,
    /// How many bytes stand in front of the first entry's line.
    pub entries_at: usize,
    /// How many bytes stand in front of the first frame's line.
    pub frames_at: usize,
}

/// What is found of a journal.
#[derive(Clone, Copy)]
pub enum Verdict {
    /// It is that of a legal history.
    Legal,
    /// This entry, counted from 1, is the first that isn't right. Where it is 0 each entry is right, and the frames or the counts
    /// aren't those that the entries make, or a client hasn't left.
    Wrong { entry: u64 },
}

/// Whether a journal is that of a legal history, or else what is wrong first. Its entries and frames are read from its text, and
/// nothing is kept of them but what the replay keeps.
pub fn judge(alloc: Global, bytes: &[u8], outline: &Outline) -> Result<Verdict, AllocError>
    requires journal { (journal : Journal) × JournalInRange journal × IsOutline bytes.now journal outline.now }
    requires few { outline.now.entries ≤ 2 ^ 31 - 1 }
    ensures legal { IfOk result (λ verdict. verdict ≡ Legal → (journal : Journal) → JournalInRange journal → IsOutline bytes.now journal outline.now
        → IsLegal journal) }
    ensures wrong { IfOk result (λ verdict. (n : ℕ) → verdict ≡ Wrong n → (journal : Journal) → JournalInRange journal
        → IsOutline bytes.now journal outline.now → IsWrong journal n) }
{
    right_is_sound();
    let mut judging = Judging::new(alloc, bytes, outline)?;
    for n in 0..outline.entries {
        if !judging.next_is_right(alloc)? {
            return Ok(Verdict::Wrong { entry: n + 1 });
        }
    }
    if judging.fits(outline) {
        Ok(Verdict::Legal)
    } else {
        Ok(Verdict::Wrong { entry: 0 })
    }
}
