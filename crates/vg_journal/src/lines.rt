//! The lines of a journal.

ghost use Rattle.std.specs.Prelude.{◌≡◌, ◌++◌, true, OnOk};
ghost use Rattle.vg_text.specs.Text.{are_characters, numbered};
ghost use Rattle.vg_journal.specs.Text.{entry_line, display_line, frame_line, title_text, head_text, host_text, queues_text, counts_text, without_line, without_text};

use std::alloc::AllocError;
use vg_config::features::{EDID, RESOURCE_BLOB, RESOURCE_UUID, VIRGL};
use vg_history::put_line;
use vg_machine::{Entry, Frame, Setup};
use vg_text::Packed;

/// Adds the lines before the entries.
#[tactic(auto, unfolding(crate::specs::Text::head_text))]
pub(crate) fn put_head(out: &mut Packed, setup: &Setup) -> Result<(), AllocError>
    ensures { OnOk result (out.new ≡ out.old ++ head_text setup.now) }
{
    put_title(out, setup.queues)?;
    put_displays(out, setup.displays.as_slice())?;
    out.put_line(b"memory ", u64::from(setup.pages))?;
    put_queues(out, setup.queues)?;
    put_without(out, setup.accepted)?;
    out.put_line(b"clients ", u64::from(setup.clients))?;
    put_host(out, setup.host)
}

#[tactic(auto, unfolding(crate::specs::Text::title_text))]
fn put_title(out: &mut Packed, queues: (u16, u16)) -> Result<(), AllocError>
    ensures { OnOk result (out.new ≡ out.old ++ title_text queues) }
{
    if queues.0 == 64 {
        out.put(b"vgpu-journal 1\n")
    } else {
        out.put(b"vgpu-journal 2\n")
    }
}

/// Adds the line of the queues, which version 2 has.
#[tactic(auto, unfolding(crate::specs::Text::queues_text))]
fn put_queues(out: &mut Packed, queues: (u16, u16)) -> Result<(), AllocError>
    ensures { OnOk result (out.new ≡ out.old ++ queues_text queues) }
{
    if queues.0 == 64 {
        return Ok(());
    }
    out.put(b"queues 256 64\n")
}

/// Adds the line of the host, where there is one.
#[tactic(auto, unfolding(crate::specs::Text::host_text))]
fn put_host(out: &mut Packed, host: bool) -> Result<(), AllocError>
    ensures { OnOk result (out.new ≡ out.old ++ host_text host) }
{
    if host { out.put(b"host\n") } else { Ok(()) }
}

fn put_displays(out: &mut Packed, displays: &[(u32, u32)]) -> Result<(), AllocError>
    ensures { OnOk result (out.new ≡ out.old ++ numbered display_line 0 displays.now) }
{
    for (number, size) in displays.iter().enumerate() {
        put_display(out, number as u64, size)?;
    }
    Ok(())
}

#[tactic(auto, unfolding(crate::specs::Text::display_line))]
fn put_display(out: &mut Packed, number: u64, size: &(u32, u32)) -> Result<(), AllocError>
    ensures { OnOk result (out.new ≡ out.old ++ display_line number size.now) }
{
    out.put_counted(b"display ", number)?;
    out.put_numbered(b" ", size.0)?;
    out.put_line(b" ", u64::from(size.1))
}

/// Adds the lines of the features that are left out.
#[tactic(auto, unfolding(crate::specs::Text::without_text))]
fn put_without(out: &mut Packed, accepted: u64) -> Result<(), AllocError>
    ensures { OnOk result (out.new ≡ out.old ++ without_text accepted) }
{
    put_left_out(out, accepted, EDID, b"edid")?;
    put_left_out(out, accepted, RESOURCE_UUID, b"uuid")?;
    put_left_out(out, accepted, RESOURCE_BLOB, b"blob")?;
    put_left_out(out, accepted, VIRGL, b"context")
}

/// Adds the line of a feature, where its bit isn't accepted.
#[tactic(auto, unfolding(crate::specs::Text::without_line))]
fn put_left_out(out: &mut Packed, accepted: u64, bit: u64, name: &[u8]) -> Result<(), AllocError>
    requires { are_characters name.now ≡ true }
    ensures { OnOk result (out.new ≡ out.old ++ without_line accepted bit name.now) }
{
    if accepted & bit != 0 {
        return Ok(());
    }
    out.put(b"without ")?;
    out.put(name)?;
    out.put(b"\n")
}

/// Adds the line of the entry with this number.
pub(crate) fn put_entry(out: &mut Packed, number: u64, entry: &Entry) -> Result<(), AllocError>
    ensures { OnOk result (out.new ≡ out.old ++ entry_line number entry.now) }
{
    put_line(out, number, entry)
}

/// Adds the lines that count the commands of each queue, and the frames.
#[tactic(auto, unfolding(crate::specs::Text::counts_text))]
pub(crate) fn put_counts(
    out: &mut Packed,
    control: u64,
    cursor: u64,
    frames: u64,
) -> Result<(), AllocError>
    ensures { OnOk result (out.new ≡ out.old ++ counts_text control cursor frames) }
{
    out.put_counted(b"rings ", control)?;
    out.put_line(b" ", cursor)?;
    out.put_line(b"frames ", frames)
}

/// Adds the line in front of the pixels of the frame with this number.
#[tactic(auto, unfolding(crate::specs::Text::frame_line))]
pub(crate) fn put_frame(out: &mut Packed, number: u64, frame: &Frame) -> Result<(), AllocError>
    ensures { OnOk result (out.new ≡ out.old ++ frame_line number frame.now) }
{
    out.put_counted(b"frame ", number)?;
    out.put(b" ")?;
    out.put_three(
        u64::from(frame.scanout),
        u64::from(frame.width),
        u64::from(frame.height),
    )?;
    out.put_line(b" ", frame.entry)
}
