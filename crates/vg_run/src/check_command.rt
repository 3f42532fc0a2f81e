//! The command `check`: whether a journal is that of a legal history.

ghost use Rattle.std.specs.Prelude.{◌≡◌, ◌≤◌, length, IfOk, IfErr};
ghost use Rattle.vg_journal_lines.specs.Refusals.{IsRefusedAt};
ghost use Rattle.vg_run.specs.declared.journals.Question.TheVariants.{Check};
ghost use Rattle.vg_run.specs.Checks.{IsCheckable, checked_text, legal_text};
ghost use Rattle.vg_run.specs.JournalsWithin.{EndsFound, Says, written, status_of};

use crate::journals::{Said, wrong_line};
use crate::top::Status;
use std::alloc::{AllocError, Global};
use vg_checking::{Checked, check};

/// What `check` says of the journal that these bytes are, or the line at which they are none.
#[tactic(auto, using(crate::proofs::SaidLemmas::no_rest))]
pub(crate) fn say_check(alloc: Global, bytes: &[u8]) -> Result<Result<Said, u32>, AllocError>
    requires { IsCheckable bytes.now }
    ensures says { IfOk result (λ read. IfOk read (λ said. Says Check bytes.now said.end (written said.text.items said.rest bytes.now))) }
    ensures ends { IfOk result (λ read. IfOk read (λ said. EndsFound said.end)) }
    ensures inside { IfOk result (λ read. IfOk read (λ said. said.rest ≤ length bytes.now)) }
    ensures refused { IfOk result (λ read. IfErr read (IsRefusedAt bytes.now)) }
{
    match check(alloc, bytes)? {
        Ok(checked) => {
            let text = line_of(alloc, checked)?;
            let end = status_of(checked);
            let rest = bytes.len();
            Ok(Ok(Said { text, rest, end }))
        }
        Err(line) => Ok(Err(line)),
    }
}

/// The line that says what was found.
fn line_of(alloc: Global, checked: Checked) -> Result<Vec<u8>, AllocError>
    ensures { IfOk result (λ line. line.items ≡ checked_text checked) }
{
    match checked {
        Checked::Legal { entries, frames } => legal_line(alloc, entries, frames),
        Checked::Wrong { entry } => wrong_line(alloc, entry),
    }
}

/// The line that says that it is legal.
#[tactic(auto, using(crate::proofs::TextLemmas::legal_is))]
fn legal_line(alloc: Global, entries: u64, frames: u64) -> Result<Vec<u8>, AllocError>
    ensures { IfOk result (λ line. line.items ≡ legal_text entries frames) }
{
    let line = format!(in alloc; "legal {entries} entries {frames} frames\n")?;
    Ok(line.into_bytes())
}

/// How the call ends where all is written.
fn status_of(checked: Checked) -> Status
    ensures is { result ≡ status_of checked }
    ensures ends { EndsFound result }
{
    match checked {
        Checked::Legal { .. } => Status::Done,
        Checked::Wrong { entry } => Status::Wrong { entry },
    }
}
