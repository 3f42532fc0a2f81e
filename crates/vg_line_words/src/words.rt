//! What a word says.

ghost use Rattle.std.specs.Prelude.{◌≡◌, ◌<◌, ◌≤◌, ◌^◌, ◌∷◌, [], length, map, IfOk, IfSome, OnErr, OnOk, MatchOption};
ghost use Rattle.vg_list.specs.Front.{HasFront};
ghost use Rattle.vg_line_words.specs.Words.{parts_at, number_of, bytes_of, bytes_within, numbers_of};

use memchr::memchr;
use std::alloc::{AllocError, Global};
use vg_list::Seq;
use vg_script_words::{Stop, hex_bytes, is, is_number, value};

/// The bytes before the first byte `mark`, and those behind it, where there is one.
fn cut_at(text: &[u8], mark: u8) -> Option<(&[u8], &[u8])>
    ensures parts { MatchOption result (parts_at mark text.now ≡ text.now ∷ [])
        (λ both. parts_at mark text.now ≡ both.0.now ∷ parts_at mark both.1.now) }
    ensures shorter { IfSome result (λ both. length both.1.now < length text.now) }
{
    match memchr(mark, text) {
        Some(place) => Some((&text[..place], &text[place + 1..])),
        None => None,
    }
}

/// Puts the parts of a line between its blanks in place of others: two blanks have an empty one between them. It fails only
/// for want of memory, and then leaves the first of them.
pub fn put_parts<'a>(words: &mut Vec<&'a [u8]>, line: &'a [u8]) -> Result<(), AllocError>
    ensures ok { OnOk result (map (λ word. word.now) words.new.items ≡ parts_at 32 line.now) }
    ensures err { OnErr result (HasFront [] (map (λ word. word.now) words.new.items) (parts_at 32 line.now)) }
{
    words.clear();
    let mut rest = line;
    while let Some((part, after)) = cut_at(rest, b' ') {
        words.push(part)?;
        rest = after;
    }
    words.push(rest)?;
    Ok(())
}

/// A number below a bound.
#[tactic(auto, unfolding(crate::specs::Words::number_of))]
pub fn number(word: &[u8], bound: u64) -> Option<u64>
    ensures { result ≡ number_of bound word.now }
{
    if !is_number(word) {
        return None;
    }
    let number = value(word);
    if number < bound { Some(number) } else { None }
}

/// A number below a bound that is itself at most 4,294,967,296.
pub fn short_number(word: &[u8], bound: u64) -> Option<u32>
    requires { bound ≤ 2 ^ 32 }
    ensures { result ≡ number_of bound word.now }
{
    let number = number(word, bound)?;
    Some(number as u32)
}

/// A number below 4,294,967,296.
pub fn number32(word: &[u8]) -> Option<u32>
    ensures { result ≡ number_of (2 ^ 32) word.now }
{
    short_number(word, 1 << 32)
}

/// Bytes as lower-case hexadecimal digits, or none where the word is `-`.
pub fn any_bytes(alloc: Global, word: &[u8]) -> Result<Option<Seq<u8>>, AllocError>
    ensures { IfOk result (λ bytes. bytes ≡ bytes_of word.now) }
{
    if is(word, b"-") {
        return Ok(Some(Seq::from_vec(Vec::new(alloc))));
    }
    if word.is_empty() {
        return Ok(None);
    }
    match hex_bytes(alloc, word) {
        Ok(bytes) => Ok(Some(bytes)),
        Err(Stop::Memory) => Err(AllocError),
        Err(Stop::Fault(_)) => Ok(None),
    }
}

/// The same, of at most so many bytes.
#[tactic(auto, using(crate::proofs::HexLaws::within_short, crate::proofs::HexLaws::within_long))]
pub fn bytes(alloc: Global, word: &[u8], most: usize) -> Result<Option<Seq<u8>>, AllocError>
    ensures { IfOk result (λ bytes. bytes ≡ bytes_within most word.now) }
{
    if word.len() / 2 > most {
        return Ok(None);
    }
    any_bytes(alloc, word)
}

/// Numbers below a bound with a comma between two, or none where the word is `-`.
pub fn numbers(alloc: Global, word: &[u8], bound: u64) -> Result<Option<Seq<u32>>, AllocError>
    requires { bound ≤ 2 ^ 32 }
    ensures { IfOk result (λ numbers. numbers ≡ numbers_of bound word.now) }
{
    if is(word, b"-") {
        return Ok(Some(Seq::from_vec(Vec::new(alloc))));
    }
    let mut numbers = Vec::new(alloc);
    let mut rest = word;
    while let Some((part, after)) = cut_at(rest, b',') {
        let Some(n) = short_number(part, bound) else {
            return Ok(None);
        };
        numbers.push(n)?;
        rest = after;
    }
    let Some(n) = short_number(rest, bound) else {
        return Ok(None);
    };
    numbers.push(n)?;
    Ok(Some(Seq::from_vec(numbers)))
}
