//! The frames of a journal, compared with others one after another.

ghost use Rattle.std.specs.Prelude.{◌≡◌, ◌↔◌, List, [], ◌∷◌, ◌++◌, length, true, false, IfOk, IsTrue, MatchOption};
ghost use mathlib.Core.List.{IsPrefix};
ghost use Rattle.vg_scanout.specs.declared.scanout.Frame.{Frame as AnyFrame};
ghost use Rattle.vg_journal_lines.specs.Read.{pixels_of};
ghost use Rattle.vg_journal_lines.specs.Words.{head_of};
ghost use Rattle.vg_judge.specs.FramesWithin.{AreMet, AreOthers, ArePixels, IsMet, IsOther};

use std::alloc::AllocError;
use vg_formats::pixel_bytes;
use vg_journal_lines::{FrameHead, frame_heads_and_their_words, frame_of};
use vg_line_words::{plain_words_and_their_line, put_parts};
use vg_machine::Frame;
use vg_script_words::cut;
use vg_shared_bytes::Strips;

/// How far the frames of a journal were met.
#[derive(Drop)]
pub(crate) struct Frames<'a> {
    /// What stands behind those that were met.
    pub(crate) rest: &'a [u8],
    /// How many were met.
    pub(crate) met: u64,
    /// How many there are.
    pub(crate) count: u64,
}

impl<'a> Frames<'a> {
    /// Whether this frame is the next of the journal. Behind one that isn't, none is met.
    pub(crate) fn meet(
        &mut self,
        words: &mut Vec<&'a [u8]>,
        frame: &Frame,
    ) -> Result<bool, AllocError>
        ensures met { IfOk result (λ met. met ≡ true → (all before : List AnyFrame) → AreMet all before self.old
            → AreMet all (before ++ frame.now ∷ []) self.new) }
        ensures other { IfOk result (λ met. met ≡ false → (all before : List AnyFrame) → AreMet all before self.old
            → IsPrefix (before ++ frame.now ∷ []) all → ⊥) }
    {
        if self.met >= self.count {
            return Ok(false);
        }
        let Some(after) = behind_frame(words, self.met + 1, self.rest, frame)? else {
            return Ok(false);
        };
        self.rest = after;
        self.met += 1;
        Ok(true)
    }

    /// Whether the frames that stand behind those that were met are the next of the journal.
    pub(crate) fn meet_all(
        &mut self,
        words: &mut Vec<&'a [u8]>,
        frames: &[Frame],
    ) -> Result<bool, AllocError>
        ensures met { IfOk result (λ met. met ≡ true → (all before : List AnyFrame) → AreMet all before self.old
            → IsPrefix before frames.now → AreMet all frames.now self.new) }
        ensures other { IfOk result (λ met. met ≡ false → (all before : List AnyFrame) → AreMet all before self.old
            → IsPrefix before frames.now → IsPrefix frames.now all → ⊥) }
    {
        let mut at = self.met as usize;
        while at < frames.len() {
            if !self.meet(words, &frames[at])? {
                return Ok(false);
            }
            at += 1;
        }
        Ok(true)
    }

    /// Whether there are no more.
    pub(crate) fn are_all_met(&self) -> bool
        ensures { (all met : List AnyFrame) → AreMet all met self.now → IsTrue result ↔ (met ≡ all) }
    {
        self.met == self.count
    }
}

/// What stands behind frame n, where it is this one that the bytes begin with.
fn behind_frame<'a>(
    words: &mut Vec<&'a [u8]>,
    n: u64,
    bytes: &'a [u8],
    frame: &Frame,
) -> Result<Option<&'a [u8]>, AllocError>
    ensures { IfOk result (λ found. MatchOption found (IsOther n bytes.now frame.now) (λ after. IsMet n bytes.now frame.now after.now)) }
{
    frame_heads_and_their_words();
    plain_words_and_their_line();
    let (line, after) = cut(bytes, b'\n');
    put_parts(words, line)?;
    let Some(head) = frame_of(n, words.as_slice()) else {
        return Ok(None);
    };
    if !is_head_of(&head, frame) {
        return Ok(None);
    }
    Ok(behind_pixels(after, &frame.pixels))
}

/// Whether a line says of a frame what it is, but for its pixels, and how many bytes these are.
fn is_head_of(head: &FrameHead, frame: &Frame) -> bool
    ensures { IsTrue result ↔ ((head.now ≡ head_of frame.now) × (length frame.now.pixels ≡ pixels_of head.now)) }
{
    head.scanout == frame.scanout
        && head.width == frame.width
        && head.height == frame.height
        && head.entry == frame.entry
        && frame.pixels.len() as u128 == pixel_bytes(head.width, head.height)
}

/// What stands behind these pixels and their line end, where the bytes begin with these.
fn behind_pixels<'a>(bytes: &'a [u8], pixels: &Strips) -> Option<&'a [u8]>
    ensures { MatchOption result (AreOthers bytes.now pixels.now) (λ after. ArePixels bytes.now pixels.now after.now) }
{
    let count = pixels.len();
    if bytes.len() <= count || !are_pixels(&bytes[..count], pixels) {
        return None;
    }
    Some(&bytes[count + 1..])
}

/// Whether bytes are these pixels.
fn are_pixels(bytes: &[u8], pixels: &Strips) -> bool
    ensures { IsTrue result ↔ (bytes.now ≡ pixels.now) }
{
    if bytes.len() != pixels.len() {
        return false;
    }
    let mut at = 0;
    while at < bytes.len() {
        let piece = pixels.piece(at);
        let end = at + piece.len();
        if !are_same(&bytes[at..end], piece) {
            return false;
        }
        at = end;
    }
    true
}

fn are_same(one: &[u8], other: &[u8]) -> bool
    ensures { IsTrue result ↔ (one.now ≡ other.now) }
{
    one == other
}
