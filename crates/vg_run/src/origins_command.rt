//! The command `origins`: whose bytes a journal's frames have.

ghost use Rattle.std.specs.Prelude.{◌≡◌, ◌≤◌, length, IfOk, IfErr};
ghost use Rattle.vg_journal_lines.specs.Refusals.{IsRefusedAt};
ghost use Rattle.vg_run.specs.declared.journals.Question.TheVariants.{Origins};
ghost use Rattle.vg_run.specs.Checks.{IsCheckable};
ghost use Rattle.vg_run.specs.Origins.{found_text};
ghost use Rattle.vg_run.specs.JournalsWithin.{EndsFound, Says, written, status_of_origins};

use crate::journals::{Said, wrong_line};
use crate::top::Status;
use std::alloc::{AllocError, Global};
use vg_tracing::{Found, origins, origins_text};

/// What `origins` says of the journal that these bytes are, or the line at which they are none.
#[tactic(auto, using(crate::proofs::SaidLemmas::no_rest))]
pub(crate) fn say_origins(alloc: Global, bytes: &[u8]) -> Result<Result<Said, u32>, AllocError>
    requires { IsCheckable bytes.now }
    ensures says { IfOk result (λ read. IfOk read (λ said. Says Origins bytes.now said.end (written said.text.items said.rest bytes.now))) }
    ensures ends { IfOk result (λ read. IfOk read (λ said. EndsFound said.end)) }
    ensures inside { IfOk result (λ read. IfOk read (λ said. said.rest ≤ length bytes.now)) }
    ensures refused { IfOk result (λ read. IfErr read (IsRefusedAt bytes.now)) }
{
    match origins(alloc, bytes)? {
        Ok(found) => {
            let text = text_of(alloc, &found)?;
            let end = status_of(&found);
            let rest = bytes.len();
            Ok(Ok(Said { text, rest, end }))
        }
        Err(line) => Ok(Err(line)),
    }
}

/// What is said of what was found.
fn text_of(alloc: Global, origins: &Found) -> Result<Vec<u8>, AllocError>
    ensures { IfOk result (λ text. text.items ≡ found_text origins.now) }
{
    match origins {
        Found::Drawn { frames } => origins_text(alloc, frames.as_slice()),
        Found::Wrong { entry } => wrong_line(alloc, *entry),
    }
}

/// How the call ends where all is written.
fn status_of(origins: &Found) -> Status
    ensures is { result ≡ status_of_origins origins.now }
    ensures ends { EndsFound result }
{
    match origins {
        Found::Drawn { .. } => Status::Done,
        Found::Wrong { entry } => Status::Wrong { entry: *entry },
    }
}
