//! How many guest pages a line asks for.

ghost use Rattle.std.specs.Prelude.{◌≡◌, map};
ghost use Rattle.vg_script.specs.AskedWithin.{buffer_asks, blob_asks, words_ask};

use vg_limits::version_2::MOST_BYTES;
use vg_script_words::{is, is_number, limited, size};

/// A guest page, in bytes.
const PAGE_BYTES: u32 = 4_096;

/// The pages that a line asks for, by its words: none where they are no numbers within their limits.
pub(crate) fn words_ask(word: &[u8], args: &[&[u8]]) -> u32
    ensures { result ≡ words_ask word.now (map (λ arg. arg.now) args.now) }
{
    if is(word, b"buffer") {
        return match args {
            &[_, width, height, _] => buffer_asks(width, height),
            _ => 0,
        };
    }
    if is(word, b"blob") {
        return match args {
            &[_, size] => blob_asks(size),
            _ => 0,
        };
    }
    0
}

#[tactic(auto, unfolding(crate::specs::AskedWithin::buffer_asks))]
fn buffer_asks(width: &[u8], height: &[u8]) -> u32
    ensures { result ≡ buffer_asks width.now height.now }
{
    if !is_number(width) || !is_number(height) {
        return 0;
    }
    match size(width, height) {
        Ok((width, height)) => (4 * width * height).div_ceil(PAGE_BYTES),
        Err(_) => 0,
    }
}

#[tactic(auto, unfolding(crate::specs::AskedWithin::blob_asks))]
fn blob_asks(size: &[u8]) -> u32
    ensures { result ≡ blob_asks size.now }
{
    if !is_number(size) {
        return 0;
    }
    match limited(size, 1, MOST_BYTES) {
        Ok(size) => size.div_ceil(PAGE_BYTES),
        Err(_) => 0,
    }
}
