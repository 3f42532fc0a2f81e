//! The next piece of a journal's bytes: a line, or a frame's pixels, with a line end behind it.

ghost use Rattle.std.specs.Prelude.{◌≡◌, ◌<◌, ◌∷◌, ◌++◌, length, ℕ, List, IfOk, OnErr, MatchOption, Some, None};
ghost use Rattle.vg_journal_lines.specs.Moves.{IsKept};
ghost use Rattle.vg_journal_lines.specs.Refusals.{GoesNoMore};
ghost use Rattle.vg_journal_lines.specs.States.{step};
ghost use Rattle.vg_journal_read.specs.PiecesWithin.{Begins, BeginsNone, MayBe, TookPiece, WentOn, head_at};

use memchr::memchr;
use std::alloc::{AllocError, Global};
use vg_formats::pixel_bytes;
use vg_journal_lines::{FrameHead, Given, Stage, State, take_line, take_pixels};
use vg_line_words::put_parts;
use vg_machine::Entry;

/// What a piece gives beside what is known then.
#[derive(Drop)]
pub(crate) enum Part {
    Nothing,
    Entry { entry: Entry },
    /// The piece is the pixels of this frame.
    Frame { head: FrameHead },
}

/// Goes on by the next piece of some bytes, if one may come next: what it gives, the piece, and the bytes behind its line end. The
/// words of a line are put in place of others. Where none may come next the state stays as it is.
pub(crate) fn go_on<'a>(
    alloc: Global,
    words: &mut Vec<&'a [u8]>,
    state: &mut State,
    bytes: &'a [u8],
) -> Result<Option<(Part, &'a [u8], &'a [u8])>, AllocError>
    requires { IsKept state.old }
    ensures ok { IfOk result (λ next. MatchOption next (GoesNoMore state.old bytes.now)
        (λ gone. WentOn state.old state.new bytes.now gone.0 gone.1.now gone.2.now)) }
    ensures same { IfOk result (λ next. MatchOption next (state.new ≡ state.old) (λ gone. Unit {0})) }
{
    let Some((piece, after)) = next_piece(head_at(state.stage), bytes) else {
        return Ok(None);
    };
    match take_piece(alloc, words, state, piece)? {
        Some(part) => Ok(Some((part, piece, after))),
        None => Ok(None),
    }
}

/// The frame whose pixels come next, if that is what comes.
fn head_at(stage: Stage) -> Option<FrameHead>
    ensures { result ≡ head_at stage }
{
    match stage {
        Stage::Pixels { head, .. } => Some(head),
        _ => None,
    }
}

/// The next piece of some bytes, and those behind its line end.
fn next_piece(head: Option<FrameHead>, bytes: &[u8]) -> Option<(&[u8], &[u8])>
    ensures { MatchOption result (BeginsNone head bytes.now) (λ both. Begins head bytes.now both.0.now both.1.now) }
{
    match head {
        Some(head) => pixels_in(head, bytes),
        None => line_in(bytes),
    }
}

/// The bytes before the first line end, and those behind it.
fn line_in(bytes: &[u8]) -> Option<(&[u8], &[u8])>
    ensures { MatchOption result (BeginsNone None bytes.now) (λ both. Begins None bytes.now both.0.now both.1.now) }
{
    match memchr(b'\n', bytes) {
        Some(place) => Some((&bytes[..place], &bytes[place + 1..])),
        None => None,
    }
}

/// As many bytes as a frame's pixels have, and those behind the line end there.
fn pixels_in(head: FrameHead, bytes: &[u8]) -> Option<(&[u8], &[u8])>
    ensures { MatchOption result (BeginsNone (Some head) bytes.now) (λ both. Begins (Some head) bytes.now both.0.now both.1.now) }
{
    let count = pixel_bytes(head.width, head.height);
    if count >= bytes.len() as u128 {
        return None;
    }
    closed_at(count as usize, bytes)
}

/// So many bytes, and those behind the line end there.
fn closed_at(count: usize, bytes: &[u8]) -> Option<(&[u8], &[u8])>
    requires { count < length bytes.now }
    ensures { MatchOption result ((piece after : List ℕ) → length piece ≡ count → bytes.now ≡ piece ++ 10 ∷ after → ⊥)
        (λ both. (bytes.now ≡ both.0.now ++ 10 ∷ both.1.now) × (length both.0.now ≡ count)) }
{
    if bytes[count] != b'\n' {
        return None;
    }
    Some((&bytes[..count], &bytes[count + 1..]))
}

/// Goes on by a piece, if it may come next.
fn take_piece<'a>(
    alloc: Global,
    words: &mut Vec<&'a [u8]>,
    state: &mut State,
    piece: &'a [u8],
) -> Result<Option<Part>, AllocError>
    requires kept { IsKept state.old }
    requires may_be { MayBe (head_at state.old.stage) piece.now }
    ensures ok { IfOk result (TookPiece (step state.old piece.now) state.old state.new piece.now) }
    ensures err { OnErr result (state.new ≡ state.old) }
{
    if let Stage::Pixels { head, left } = state.stage {
        if take_pixels(state, head, left, piece.len()) {
            return Ok(Some(Part::Frame { head }));
        }
        return Ok(None);
    }
    put_parts(words, piece)?;
    match take_line(alloc, state, words.as_slice())? {
        Some(Given::Nothing) => Ok(Some(Part::Nothing)),
        Some(Given::Entry { entry }) => Ok(Some(Part::Entry { entry })),
        None => Ok(None),
    }
}
