//! Words that are numbers.

ghost use Rattle.std.specs.Prelude.{◌≡◌, ◌≤◌, ◌^◌};
ghost use Rattle.vg_journal_lines.specs.Read.{from_one, is_this};

use vg_line_words::{number, short_number};

/// Whether a word is this number, which is below 2^63.
pub(crate) fn is_this(n: u64, word: &[u8]) -> bool
    ensures { result ≡ is_this n word.now }
{
    match number(word, 1 << 63) {
        Some(read) => read == n,
        None => false,
    }
}

/// A number from 1 on, below a bound.
pub(crate) fn from_one(word: &[u8], bound: u64) -> Option<u32>
    requires { bound ≤ 2 ^ 32 }
    ensures { result ≡ from_one bound word.now }
{
    let n = short_number(word, bound)?;
    if n == 0 { None } else { Some(n) }
}
