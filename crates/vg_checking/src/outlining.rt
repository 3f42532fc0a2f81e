//! What is said of a journal beside its entries and frames.

ghost use Rattle.std.specs.Prelude.{◌≡◌, ◌≤◌, length, IfOk, IfErr};
ghost use Rattle.vg_journal_lines.specs.Refusals.{IsRefusedAt};
ghost use Rattle.vg_checking.specs.Outlining.{IsOutlined, outline_of};
ghost use Rattle.vg_limits.specs.Limits.{version_2};

use std::alloc::{AllocError, Global};
use vg_journal_lines::State;
use vg_journal_read::{Scanned, accepted_by_lines, scan};
use vg_judge::Outline;
use vg_machine::Setup;

/// What is said of the journal that these bytes are, beside its entries and frames, or the line, counted from 1, at which they are
/// none. A frame's pixels are one line. It fails only for want of memory.
#[tactic(auto, using(crate::proofs::OutlineLemmas::is_outlined))]
pub fn outlined(alloc: Global, bytes: &[u8]) -> Result<Result<Outline, u32>, AllocError>
    requires { length bytes.now ≤ version_2.journal }
    ensures ok { IfOk result (λ read. IfOk read (IsOutlined bytes.now)) }
    ensures err { IfOk result (λ read. IfErr read (IsRefusedAt bytes.now)) }
{
    match scan(alloc, bytes)? {
        Ok(scanned) => Ok(Ok(outline_of(scanned))),
        Err(line) => Ok(Err(line)),
    }
}

fn outline_of(scanned: Scanned) -> Outline
    ensures { result ≡ outline_of scanned }
{
    let Scanned {
        state,
        entries_at,
        frames_at,
    } = scanned;
    let State {
        version,
        displays,
        pages,
        left_out,
        clients,
        host,
        entries,
        control,
        cursor,
        frames,
        ..
    } = state;
    Outline {
        setup: Setup {
            displays,
            pages,
            accepted: accepted_by_lines(left_out),
            clients,
            queues: version.queues(),
            host,
        },
        entries,
        control,
        cursor,
        frames,
        entries_at,
        frames_at,
    }
}
