//! The lines behind the entries.

ghost use Rattle.std.specs.Prelude.{◌≡◌, ◌^◌, ◌&&◌, map, if◌then◌else◌, option_and_then, bytes_eq, codes, None};
ghost use Rattle.vg_line_words.specs.Words.{number_of};
ghost use Rattle.vg_act_lines.specs.Read.{both, two};
ghost use Rattle.vg_journal_lines.specs.Read.{any_head, frame_of, frames_of, if_it_fits, is_end, is_this, rings_of};

use crate::numbers::is_this;
use vg_formats::pixel_bytes;
use vg_line_words::{number, number32};
use vg_script_words::is;

/// The line of a frame, but for its number: the scanout, width and height in pixels, and the entry that made it.
#[derive(Clone, Copy)]
pub struct FrameHead {
    pub scanout: u32,
    pub width: u32,
    pub height: u32,
    pub entry: u64,
}

/// `rings A B`: how many commands went to each queue.
#[tactic(auto, unfolding(crate::specs::Read::rings_of))]
pub fn rings_of(words: &[&[u8]]) -> Option<(u64, u64)>
    ensures { result ≡ rings_of (map (λ word. word.now) words.now) }
{
    match words {
        &[word, control, cursor] => rings(word, control, cursor),
        _ => None,
    }
}

fn rings(word: &[u8], control: &[u8], cursor: &[u8]) -> Option<(u64, u64)>
    ensures { result ≡ (if bytes_eq word.now (codes "rings")
        then both (number_of (2 ^ 63) control.now) (number_of (2 ^ 63) cursor.now) else None) }
{
    if !is(word, b"rings") {
        return None;
    }
    Some((number(control, 1 << 63)?, number(cursor, 1 << 63)?))
}

/// `frames M`: how many frames there are.
#[tactic(auto, unfolding(crate::specs::Read::frames_of))]
pub fn frames_of(words: &[&[u8]]) -> Option<u64>
    ensures { result ≡ frames_of (map (λ word. word.now) words.now) }
{
    match words {
        &[word, frames] => frames_in(word, frames),
        _ => None,
    }
}

fn frames_in(word: &[u8], frames: &[u8]) -> Option<u64>
    ensures { result ≡ (if bytes_eq word.now (codes "frames") then number_of (2 ^ 63) frames.now else None) }
{
    if is(word, b"frames") {
        number(frames, 1 << 63)
    } else {
        None
    }
}

/// `frame I S W H E`, where I is this number.
#[tactic(auto, unfolding(crate::specs::Read::frame_of))]
pub fn frame_of(n: u64, words: &[&[u8]]) -> Option<FrameHead>
    ensures { result ≡ frame_of n (map (λ word. word.now) words.now) }
{
    match words {
        &[word, number, scanout, width, height, entry] => {
            frame(n, word, number, scanout, width, height, entry)
        }
        _ => None,
    }
}

fn frame(
    n: u64,
    word: &[u8],
    number: &[u8],
    scanout: &[u8],
    width: &[u8],
    height: &[u8],
    entry: &[u8],
) -> Option<FrameHead>
    ensures { result ≡ (if bytes_eq word.now (codes "frame") && is_this n number.now
        then option_and_then if_it_fits (any_head scanout.now width.now height.now entry.now) else None) }
{
    if !is(word, b"frame") || !is_this(n, number) {
        return None;
    }
    let head = any_head(scanout, width, height, entry)?;
    if_it_fits(head)
}

fn any_head(scanout: &[u8], width: &[u8], height: &[u8], entry: &[u8]) -> Option<FrameHead>
    ensures { result ≡ any_head scanout.now width.now height.now entry.now }
{
    let scanout = number32(scanout)?;
    let (width, height) = two(width, height)?;
    let entry = number(entry, 1 << 63)?;
    Some(FrameHead {
        scanout,
        width,
        height,
        entry,
    })
}

fn two(width: &[u8], height: &[u8]) -> Option<(u32, u32)>
    ensures { result ≡ two width.now height.now }
{
    Some((number32(width)?, number32(height)?))
}

fn if_it_fits(head: FrameHead) -> Option<FrameHead>
    ensures { result ≡ if_it_fits head }
{
    if pixel_bytes(head.width, head.height) <= 33_554_432 {
        Some(head)
    } else {
        None
    }
}

/// Whether some words are those of the last line.
#[tactic(auto, unfolding(crate::specs::Read::is_end))]
pub fn is_end(words: &[&[u8]]) -> bool
    ensures { result ≡ is_end (map (λ word. word.now) words.now) }
{
    match words {
        &[word] => is(word, b"end"),
        _ => false,
    }
}
