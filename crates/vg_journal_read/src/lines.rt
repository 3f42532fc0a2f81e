//! A journal's lines read once, and nothing kept of its entries and frames.

ghost use Rattle.std.specs.Prelude.{◌≡◌, ◌≤◌, ◌==◌, length, if◌then◌else◌, IfOk, IfErr, OnErr, MatchOption};
ghost use Rattle.vg_journal_lines.specs.Moves.{IsKept};
ghost use Rattle.vg_journal_lines.specs.Refusals.{GoesNoMore, IsRefusedAt};
ghost use Rattle.vg_journal_read.specs.Scans.{IsScanned};
ghost use Rattle.vg_journal_read.specs.ScansWithin.{Passed, is_at_entries, is_at_frames, is_over};

use crate::pieces::go_on;
use crate::start::start;
use std::alloc::{AllocError, Global};
use vg_journal_lines::{
    Stage, State, journals_and_their_pieces, journals_and_their_refusals, journals_and_their_text,
    pieces_and_their_text,
};

/// What is known of a journal once its lines were read.
#[derive(Drop)]
pub struct Scanned {
    /// What its lines say, but for its entries and frames.
    pub state: State,
    /// The place behind the clients' line, or behind that of the host, where the entries begin.
    pub entries_at: usize,
    /// The place behind the count of frames, where the frames begin.
    pub frames_at: usize,
}

/// Reads a journal's lines, or says at which piece, from 1, the bytes begin no journal: a frame's pixels are one piece, as each
/// line is.
pub fn scan(alloc: Global, bytes: &[u8]) -> Result<Result<Scanned, u32>, AllocError>
    requires { length bytes.now ≤ 4294967294 }
    ensures ok { IfOk result (λ read. IfOk read (IsScanned bytes.now)) }
    ensures err { IfOk result (λ read. IfErr read (IsRefusedAt bytes.now)) }
{
    journals_and_their_refusals();
    journals_and_their_text();
    journals_and_their_pieces();
    pieces_and_their_text();
    let mut state = start(alloc);
    let mut words = Vec::new(alloc);
    let mut rest = bytes;
    let mut pieces: u32 = 0;
    let mut entries_at = 0;
    let mut frames_at = 0;
    while let Some(after) = pass_on(alloc, &mut words, &mut state, rest)? {
        let at = bytes.len() - after.len();
        entries_at = place_if(is_at_entries(&state), at, entries_at);
        frames_at = place_if(is_at_frames(&state), at, frames_at);
        pieces += 1;
        rest = after;
    }
    if !is_over(state.stage, rest) {
        return Ok(Err(pieces + 1));
    }
    Ok(Ok(Scanned {
        state,
        entries_at,
        frames_at,
    }))
}

/// Goes on by the next piece of some bytes, if one may come next, and keeps nothing of what it gives: the bytes behind it.
fn pass_on<'a>(
    alloc: Global,
    words: &mut Vec<&'a [u8]>,
    state: &mut State,
    bytes: &'a [u8],
) -> Result<Option<&'a [u8]>, AllocError>
    requires { IsKept state.old }
    ensures ok { IfOk result (λ next. MatchOption next (GoesNoMore state.old bytes.now) (λ after. Passed state.old state.new bytes.now after.now)) }
    ensures same { IfOk result (λ next. MatchOption next (state.new ≡ state.old) (λ after. Unit {0})) }
{
    match go_on(alloc, words, state, bytes)? {
        Some((_, _, after)) => Ok(Some(after)),
        None => Ok(None),
    }
}

/// This place, where a test holds, and else the place before.
fn place_if(test: bool, at: usize, before: usize) -> usize
    ensures { result ≡ (if test then at else before) }
{
    if test { at } else { before }
}

/// Whether the clients' line was the last one, or that of the host.
fn is_at_entries(state: &State) -> bool
    ensures { result ≡ is_at_entries state.now }
{
    matches!(state.stage, Stage::Host | Stage::Entries) && state.entries == 0
}

/// Whether the count of frames was the last line.
fn is_at_frames(state: &State) -> bool
    ensures { result ≡ is_at_frames state.now }
{
    matches!(state.stage, Stage::Frame { .. }) && state.frames == 0
}

/// Whether the last line was read, and nothing stands behind it.
pub(crate) fn is_over(stage: Stage, rest: &[u8]) -> bool
    ensures { result ≡ is_over stage rest.now }
{
    matches!(stage, Stage::Done) && rest.is_empty()
}
