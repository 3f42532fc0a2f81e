//! A journal read whole.

ghost use Rattle.std.specs.Prelude.{◌≡◌, ◌≤◌, ◌++◌, [], ◌∷◌, length, ℕ, Ok, Err, IfOk, IfErr, OnOk};
ghost use Rattle.vg_journal.specs.declared.journal.Journal.{Journal as Journals};
ghost use Rattle.vg_journal_lines.specs.Pieces.{entries_in, frames_in};
ghost use Rattle.vg_journal_lines.specs.Refusals.{IsJournal, IsRefusedAt};
ghost use Rattle.vg_journal_lines.specs.States.{frame_with};
ghost use Rattle.vg_journal_read.specs.PiecesWithin.{item_of};
ghost use Rattle.vg_journal_read.specs.JournalsWithin.{journal_of};

use crate::features::accepted_by_lines;
use crate::lines::is_over;
use crate::pieces::{Part, go_on};
use crate::start::start;
use std::alloc::{AllocError, Global};
use vg_journal::Journal;
use vg_journal_lines::{FrameHead, State, journals_and_their_refusals, journals_and_their_text};
use vg_list::Seq;
use vg_machine::{Frame, History, Setup};
use vg_shared_bytes::Strips;

/// The journal whose text some bytes are, or the piece, from 1, at which they begin no journal: a frame's pixels are one piece, as
/// each line is. It fails only for want of memory.
pub fn read(alloc: Global, bytes: &[u8]) -> Result<Result<Journal, u32>, AllocError>
    requires { length bytes.now ≤ 4294967294 }
    ensures journal { IfOk result (λ read. IfOk read (IsJournal bytes.now)) }
    ensures refused { IfOk result (λ read. IfErr read (IsRefusedAt bytes.now)) }
    ensures every_journal { IfOk result (λ read. (journal : Journals) → IsJournal bytes.now journal → read ≡ Ok journal) }
    ensures every_refusal { IfOk result (λ read. (n : ℕ) → IsRefusedAt bytes.now n → read ≡ Err n) }
{
    journals_and_their_refusals();
    journals_and_their_text();
    read_pieces(alloc, bytes)
}

fn read_pieces(alloc: Global, bytes: &[u8]) -> Result<Result<Journal, u32>, AllocError>
    requires { length bytes.now ≤ 4294967294 }
    ensures ok { IfOk result (λ read. IfOk read (IsJournal bytes.now)) }
    ensures err { IfOk result (λ read. IfErr read (IsRefusedAt bytes.now)) }
{
    journals_and_their_refusals();
    let mut state = start(alloc);
    let mut words = Vec::new(alloc);
    let mut entries = History::new(alloc);
    let mut frames = Vec::new(alloc);
    let mut rest = bytes;
    let mut pieces: u32 = 0;
    while let Some((part, piece, after)) = go_on(alloc, &mut words, &mut state, rest)? {
        keep(alloc, part, piece, &mut entries, &mut frames)?;
        pieces += 1;
        rest = after;
    }
    if !is_over(state.stage, rest) {
        return Ok(Err(pieces + 1));
    }
    Ok(Ok(journal_of(state, entries, frames)))
}

/// Keeps an entry or a frame, where a piece gives one.
fn keep(
    alloc: Global,
    part: Part,
    piece: &[u8],
    entries: &mut History,
    frames: &mut Vec<Frame>,
) -> Result<(), AllocError>
    ensures entries { OnOk result (entries.new ≡ entries.old ++ entries_in (item_of part piece.now ∷ [])) }
    ensures frames { OnOk result (frames.new.items ≡ frames.old.items ++ frames_in (item_of part piece.now ∷ [])) }
{
    match part {
        Part::Nothing => Ok(()),
        Part::Entry { entry } => entries.push(entry),
        Part::Frame { head } => keep_frame(alloc, head, piece, frames),
    }
}

fn keep_frame(
    alloc: Global,
    head: FrameHead,
    pixels: &[u8],
    frames: &mut Vec<Frame>,
) -> Result<(), AllocError>
    ensures { OnOk result (frames.new.items ≡ frames.old.items ++ frame_with head pixels.now ∷ []) }
{
    let frame = Frame {
        scanout: head.scanout,
        width: head.width,
        height: head.height,
        entry: head.entry,
        pixels: cut(alloc, pixels, frames.last())?,
    };
    frames.push(frame)?;
    Ok(())
}

/// Bytes in strips, which those that are the same are shared with the pixels of another frame.
fn cut(alloc: Global, bytes: &[u8], other: Option<&Frame>) -> Result<Strips, AllocError>
    ensures { IfOk result (λ strips. strips ≡ bytes.now) }
{
    match other {
        Some(frame) => Strips::cut(alloc, bytes, Some(&frame.pixels)),
        None => Strips::cut(alloc, bytes, None),
    }
}

/// The journal whose lines say this, with these entries and frames.
fn journal_of(state: State, entries: History, frames: Vec<Frame>) -> Journal
    ensures { result ≡ journal_of state entries frames.items }
{
    let State {
        version,
        displays,
        pages,
        left_out,
        clients,
        host,
        control,
        cursor,
        ..
    } = state;
    Journal {
        setup: Setup {
            displays,
            pages,
            accepted: accepted_by_lines(left_out),
            clients,
            queues: version.queues(),
            host,
        },
        entries,
        control,
        cursor,
        frames: Seq::from_vec(frames),
    }
}
