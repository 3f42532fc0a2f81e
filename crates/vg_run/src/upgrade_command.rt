//! The command `upgrade`: a journal with the queues of version 2.

ghost use Rattle.std.specs.Prelude.{◌≡◌, ◌≤◌, ◌++◌, ℕ, codes, decimal, length, IfErr, IfOk, OnOk};
ghost use Rattle.vg_text.specs.Text.{numbered};
ghost use Rattle.vg_journal.specs.Text.{display_line};
ghost use Rattle.vg_journal_lines.specs.Refusals.{IsRefusedAt};
ghost use Rattle.vg_run.specs.declared.journals.Question.TheVariants.{Upgrade};
ghost use Rattle.vg_run.specs.Checks.{IsCheckable};
ghost use Rattle.vg_run.specs.JournalsWithin.{EndsFound, IsEndOf, Says, written};
ghost use Rattle.vg_run.specs.Upgrade.{IsTextWith, IsUpgraded, upgraded_front};

use crate::journals::Said;
use crate::top::Status;
use std::alloc::{AllocError, Global};
use vg_checking::outlined;
use vg_machine::Setup;

/// The text of this journal with the queues of version 2, or the line at which these bytes are none. Its entries aren't replayed.
#[tactic(auto, using(crate::proofs::UpgradeLemmas::text_with))]
pub(crate) fn say_upgrade(alloc: Global, bytes: &[u8]) -> Result<Result<Said, u32>, AllocError>
    requires { IsCheckable bytes.now }
    ensures says { IfOk result (λ read. IfOk read (λ said. Says Upgrade bytes.now said.end (written said.text.items said.rest bytes.now))) }
    ensures inside { IfOk result (λ read. IfOk read (λ said. said.rest ≤ length bytes.now)) }
    ensures ends { IfOk result (λ read. IfOk read (λ said. EndsFound said.end)) }
    ensures end_of { IfOk result (λ read. IfOk read (λ said. IsEndOf Upgrade said.end)) }
    ensures refused { IfOk result (λ read. IfErr read (IsRefusedAt bytes.now)) }
{
    match outlined(alloc, bytes)? {
        Ok(outline) => {
            let (text, rest) = upgraded(alloc, bytes, &outline.setup)?;
            let end = Status::Done;
            Ok(Ok(Said { text, rest, end }))
        }
        Err(line) => Ok(Err(line)),
    }
}

/// How the journal that has this text and this setup is written with the queues of version 2: a text, and the place from which on
/// its own bytes follow.
#[tactic(auto, using(crate::proofs::UpgradeLemmas::is_two))]
fn upgraded(alloc: Global, bytes: &[u8], setup: &Setup) -> Result<(Vec<u8>, usize), AllocError>
    requires { IsTextWith bytes.now setup.now }
    ensures text { IfOk result (λ pair. IsUpgraded bytes.now (written pair.0.items pair.1 bytes.now)) }
    ensures inside { IfOk result (λ pair. pair.1 ≤ length bytes.now) }
{
    if setup.queues.0 == 64 {
        from_version_1(alloc, bytes, setup)
    } else {
        Ok((Vec::new(alloc), 0))
    }
}

/// The same where it has the queues of version 1.
fn from_version_1(
    alloc: Global,
    bytes: &[u8],
    setup: &Setup,
) -> Result<(Vec<u8>, usize), AllocError>
    requires text { IsTextWith bytes.now setup.now }
    requires one { setup.now.queues.0 ≡ 64 }
    ensures text { IfOk result (λ pair. IsUpgraded bytes.now (written pair.0.items pair.1 bytes.now)) }
    ensures inside { IfOk result (λ pair. pair.1 ≤ length bytes.now) }
{
    // Both titles are as long as each other, so what stands behind the line of the pages stands behind as many bytes.
    let mut text = front_of(alloc, setup)?;
    let rest = text.len();
    put(&mut text, b"queues 256 64\n")?;
    Ok((text, rest))
}

/// The lines of version 2 in front of that of the queues.
#[tactic(auto, unfolding(crate::specs::Upgrade::upgraded_front))]
fn front_of(alloc: Global, setup: &Setup) -> Result<Vec<u8>, AllocError>
    ensures { IfOk result (λ text. text.items ≡ upgraded_front setup.now) }
{
    let mut text = Vec::new(alloc);
    put(&mut text, b"vgpu-journal 2\n")?;
    put_displays(alloc, &mut text, setup.displays.as_slice())?;
    put_pages(alloc, &mut text, setup.pages)?;
    Ok(text)
}

fn put_pages(alloc: Global, out: &mut Vec<u8>, pages: u32) -> Result<(), AllocError>
    ensures { OnOk result (out.new.items ≡ out.old.items ++ (codes "memory " ++ (decimal pages ++ codes "\n"))) }
{
    let line = format!(in alloc; "memory {pages}\n")?;
    put(out, line.as_bytes())
}

fn put_displays(alloc: Global, out: &mut Vec<u8>, displays: &[(u32, u32)]) -> Result<(), AllocError>
    ensures { OnOk result (out.new.items ≡ out.old.items ++ numbered display_line 0 displays.now) }
{
    for (number, size) in displays.iter().enumerate() {
        put_display(alloc, out, number as u64, *size)?;
    }
    Ok(())
}

#[tactic(auto, using(crate::proofs::UpgradeLemmas::display_is))]
fn put_display(
    alloc: Global,
    out: &mut Vec<u8>,
    number: u64,
    size: (u32, u32),
) -> Result<(), AllocError>
    ensures { OnOk result (out.new.items ≡ out.old.items ++ display_line number size) }
{
    let (width, height) = size;
    let line = format!(in alloc; "display {number} {width} {height}\n")?;
    put(out, line.as_bytes())
}

fn put(out: &mut Vec<u8>, bytes: &[u8]) -> Result<(), AllocError>
    ensures { OnOk result (out.new.items ≡ out.old.items ++ bytes.now) }
{
    out.extend_from_slice(bytes)
}
