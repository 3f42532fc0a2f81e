//! The entries of a journal, gone over one after another beside its frames.

ghost use Rattle.std.specs.Prelude.{◌≡◌, ◌↔◌, ◌+◌, ℕ, List, [], ◌∷◌, ◌++◌, length, true, false, IfOk, IsTrue};
ghost use Rattle.vg_machine.specs.Entries.{Entry as AnyEntry};
ghost use Rattle.vg_journal.specs.declared.journal.Journal.{Journal};
ghost use Rattle.vg_journal_lines.specs.Pieces.{JournalInRange};
ghost use Rattle.vg_check.specs.Right.{IsWrongAt};
ghost use Rattle.vg_judge.specs.JudgingWithin.{IsJudging, IsNext};
ghost use Rattle.vg_judge.specs.Outline.{IsOutline};
ghost use Rattle.vg_judge.specs.Verdicts.{FitsEntries};

use crate::entries::Entries;
use crate::frames::Frames;
use crate::verdicts::Outline;
use std::alloc::{AllocError, Global};
use vg_check::{Checker, frames_stay, right_entries_go_on};

/// The entries of a journal, gone over one after another beside its frames.
#[derive(Drop)]
pub(crate) struct Judging<'a> {
    pub(crate) entries: Entries<'a>,
    pub(crate) checker: Checker,
    pub(crate) frames: Frames<'a>,
    /// Room for the words of a frame's line.
    pub(crate) words: Vec<&'a [u8]>,
}

impl<'a> Judging<'a> {
    /// Before the first entry.
    pub(crate) fn new(
        alloc: Global,
        bytes: &'a [u8],
        outline: &Outline,
    ) -> Result<Judging<'a>, AllocError>
        requires { (journal : Journal) × JournalInRange journal × IsOutline bytes.now journal outline.now }
        ensures { IfOk result (λ judging. (journal : Journal) → JournalInRange journal → IsOutline bytes.now journal outline.now
            → IsJudging journal [] judging) }
    {
        Ok(Judging {
            checker: Checker::new(alloc, &outline.setup)?,
            entries: Entries::new(alloc, bytes, outline),
            frames: Frames {
                rest: &bytes[outline.frames_at..],
                met: 0,
                count: outline.frames,
            },
            words: Vec::new(alloc),
        })
    }

    /// Whether the next entry is right. Behind one that isn't, none is gone over.
    pub(crate) fn next_is_right(&mut self, alloc: Global) -> Result<bool, AllocError>
        requires { (journal : Journal) × (done : List AnyEntry) × IsNext journal done self.old }
        ensures right { IfOk result (λ right. right ≡ true → (journal : Journal) (done : List AnyEntry) → IsNext journal done self.old
            → (entry : AnyEntry) × IsJudging journal (done ++ entry ∷ []) self.new) }
        ensures wrong { IfOk result (λ right. right ≡ false → (journal : Journal) (done : List AnyEntry) → IsNext journal done self.old
            → IsWrongAt journal.setup journal.frames journal.entries (length done + 1)) }
    {
        right_entries_go_on();
        frames_stay();
        let entry = self.entries.next(alloc)?;
        if !self.checker.next(alloc, &entry)? {
            return Ok(false);
        }
        let met = self
            .frames
            .meet_all(&mut self.words, self.checker.frames())?;
        Ok(met)
    }

    /// Whether what the journal says beside its entries is what these make, once they were all gone over.
    pub(crate) fn fits(&self, outline: &Outline) -> bool
        ensures { (bytes : List ℕ) (journal : Journal) → IsOutline bytes journal outline.now → IsJudging journal journal.entries self.now
            → IsTrue result ↔ FitsEntries journal }
    {
        let control = self.checker.control() == outline.control;
        let cursor = self.checker.cursor() == outline.cursor;
        let left = self.checker.have_left();
        let met = self.frames.are_all_met();
        control & cursor & left & met
    }
}
