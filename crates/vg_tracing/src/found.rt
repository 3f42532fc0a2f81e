//! What is found of a text.

ghost use Rattle.std.specs.Prelude.{◌≤◌, length, IfOk, IfErr};
ghost use Rattle.vg_journal_lines.specs.Refusals.{IsRefusedAt};
ghost use Rattle.vg_checking.specs.Outlining.{IsOutlined};
ghost use Rattle.vg_tracing.specs.Origins.{AreOrigins};
ghost use Rattle.vg_limits.specs.Limits.{version_2};

use crate::tracing::traced;
use std::alloc::{AllocError, Global};
use vg_checking::outlined;
use vg_judge::{Outline, Verdict, judge};

/// What is found of a journal.
#[derive(Drop)]
pub enum Found {
    /// It is that of a legal history. For each frame there is the set of the clients who stored the bytes that it shows: bit c - 1
    /// stands for client c.
    Drawn { frames: Vec<u64> },
    /// This entry, counted from 1, is the first that isn't right, or with 0 something behind the entries, as `check` has it.
    Wrong { entry: u64 },
}

/// Whose bytes each frame has of the journal that these bytes are, or the line, counted from 1, at which they are none. A frame's pixels
/// are one line. It fails only for want of memory.
pub fn origins(alloc: Global, bytes: &[u8]) -> Result<Result<Found, u32>, AllocError>
    requires { length bytes.now ≤ version_2.journal }
    ensures found { IfOk result (λ read. IfOk read (AreOrigins bytes.now)) }
    ensures refused { IfOk result (λ read. IfErr read (IsRefusedAt bytes.now)) }
{
    match outlined(alloc, bytes)? {
        Ok(outline) => Ok(Ok(drawn_or_wrong(alloc, bytes, &outline)?)),
        Err(line) => Ok(Err(line)),
    }
}

/// Whose bytes each frame has of the journal of which this is said.
fn drawn_or_wrong(alloc: Global, bytes: &[u8], outline: &Outline) -> Result<Found, AllocError>
    requires { IsOutlined bytes.now outline.now }
    ensures { IfOk result (AreOrigins bytes.now) }
{
    match judge(alloc, bytes, outline)? {
        Verdict::Legal => Ok(Found::Drawn {
            frames: traced(alloc, bytes, outline)?,
        }),
        Verdict::Wrong { entry } => Ok(Found::Wrong { entry }),
    }
}
