//! Words that are numbers.

ghost use Rattle.std.specs.Prelude.{◌≡◌, map};
ghost use Rattle.vg_act_lines.specs.Read.{four, one_number, two};

use vg_line_words::number32;

/// Two numbers.
pub(crate) fn two(a: &[u8], b: &[u8]) -> Option<(u32, u32)>
    ensures { result ≡ two a.now b.now }
{
    Some((number32(a)?, number32(b)?))
}

/// Four numbers, two by two.
pub(crate) fn four(a: &[u8], b: &[u8], c: &[u8], d: &[u8]) -> Option<((u32, u32), (u32, u32))>
    ensures { result ≡ four a.now b.now c.now d.now }
{
    Some((two(a, b)?, two(c, d)?))
}

/// A number that no word stands behind.
pub(crate) fn one_number(words: &[&[u8]]) -> Option<u32>
    ensures { result ≡ one_number (map (λ word. word.now) words.now) }
{
    match words {
        &[n] => number32(n),
        _ => None,
    }
}
