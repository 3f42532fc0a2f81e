//! What is found of a text.

ghost use Rattle.std.specs.Prelude.{◌≤◌, length, IfOk, IfErr};
ghost use Rattle.vg_journal_lines.specs.Refusals.{IsRefusedAt};
ghost use Rattle.vg_checking.specs.Checking.{IsFound};
ghost use Rattle.vg_checking.specs.Outlining.{IsOutlined};
ghost use Rattle.vg_limits.specs.Limits.{version_2};

use crate::outlining::outlined;
use std::alloc::{AllocError, Global};
use vg_judge::{Outline, Verdict, judge};

/// What is found of a journal.
#[derive(Clone, Copy)]
pub enum Checked {
    /// It is that of a legal history, with so many entries and frames.
    Legal { entries: u64, frames: u64 },
    /// This entry, counted from 1, is the first that isn't right. Where it is 0 each entry is right, and the frames or the counts
    /// aren't those that the entries make, or a client hasn't left.
    Wrong { entry: u64 },
}

/// What is found of the journal that these bytes are, or the line, counted from 1, at which they are none. A frame's pixels are one
/// line. It fails only for want of memory.
pub fn check(alloc: Global, bytes: &[u8]) -> Result<Result<Checked, u32>, AllocError>
    requires { length bytes.now ≤ version_2.journal }
    ensures found { IfOk result (λ read. IfOk read (IsFound bytes.now)) }
    ensures refused { IfOk result (λ read. IfErr read (IsRefusedAt bytes.now)) }
{
    match outlined(alloc, bytes)? {
        Ok(outline) => Ok(Ok(judged(alloc, bytes, outline)?)),
        Err(line) => Ok(Err(line)),
    }
}

/// What is found of the journal of which this is said.
fn judged(alloc: Global, bytes: &[u8], outline: Outline) -> Result<Checked, AllocError>
    requires { IsOutlined bytes.now outline }
    ensures { IfOk result (IsFound bytes.now) }
{
    let entries = outline.entries;
    let frames = outline.frames;
    match judge(alloc, bytes, &outline)? {
        Verdict::Legal => Ok(Checked::Legal { entries, frames }),
        Verdict::Wrong { entry } => Ok(Checked::Wrong { entry }),
    }
}
