//! A line's words, and how numbers, HEX and names are spelled.

ghost use Rattle.std.specs.List.{list_all, before_first, after_first, position_or_len};
ghost use Rattle.std.specs.Int.{is_in_range};
ghost use Rattle.std.specs.Char.{is_ascii_digit, is_ascii_alphanumeric};
ghost use Rattle.std.specs.Prelude.{◌≡◌, ◌==◌, [], ◌∷◌, ◌+◌, ◌-◌, ◌*◌, ◌^◌, ◌<◌, ◌≤◌, ◌-ℤ◌, ◌&&◌, pos, min, true, false, length, map, bytes_eq, IfOk, OnErr, OnOk, MatchResult};
ghost use Rattle.vg_list.specs.Front.{HasFront};
ghost use Rattle.vg_script_words.specs.Code.{Passes, Yields, Decodes};
ghost use Rattle.vg_script_words.specs.Words.{is_text, words_of, is_number, value, is_within, is_signed, signed_value, is_position, is_hex, is_hex_digit, hex_bytes, is_hex_or_none, bytes_or_none, is_name};
ghost use Rattle.vg_limits.specs.Limits.{version_2};

use crate::kind::{Kind, Stop};
use memchr::memchr;
use std::alloc::{AllocError, Global};
use vg_limits::version_2::{MOST_HEIGHT, MOST_WIDTH};
use vg_list::Seq;

/// Whether a line has only bytes from 32 to 126, and at most 16,384 of them.
pub fn is_text(line: &[u8]) -> bool
    ensures { result ≡ is_text line.now }
{
    line.len() <= 16_384 && are_printable(line)
}

fn are_printable(line: &[u8]) -> bool
    ensures { result ≡ list_all (is_in_range 32 126) line.now }
{
    let mut all = true;
    for b in line {
        // Without an early end the loop goes over many bytes at once.
        all &= *b >= 32;
        all &= *b <= 126;
    }
    all
}

/// The bytes before the first byte `at`, and those behind it. Where there is none, all the bytes and nothing.
#[tactic(auto, using(crate::proofs::Cuts::whole))]
#[inline(always)]
pub fn cut(bytes: &[u8], at: u8) -> (&[u8], &[u8])
    ensures before { result.0.now ≡ before_first (λ b. b == at) bytes.now }
    ensures after { result.1.now ≡ after_first (λ b. b == at) bytes.now }
{
    let end = place_of(bytes, at);
    if end < bytes.len() {
        return (&bytes[..end], &bytes[end + 1..]);
    }
    (bytes, &[])
}

/// The place of the first `at`, or how many bytes there are. Many parts are empty, and are seen at once.
#[inline(always)]
fn place_of(bytes: &[u8], at: u8) -> usize
    ensures place { result ≡ position_or_len (λ b. b == at) bytes.now }
    ensures within { result ≤ length bytes.now }
{
    let [first, ..] = bytes else {
        return 0;
    };
    if *first == at {
        return 0;
    }
    far_place(bytes, at)
}

#[inline(never)]
fn far_place(bytes: &[u8], at: u8) -> usize
    ensures place { result ≡ position_or_len (λ b. b == at) bytes.now }
    ensures within { result ≤ length bytes.now }
{
    match memchr(at, bytes) {
        Some(place) => place,
        None => bytes.len(),
    }
}

/// Puts the words of a line, which are what stands between its spaces, in place of others. It fails only for want of
/// memory, and then leaves the first of them.
pub fn put_words<'a>(words: &mut Vec<&'a [u8]>, line: &'a [u8]) -> Result<(), AllocError>
    ensures ok { OnOk result (map (λ word. word.now) words.new.items ≡ words_of line.now) }
    ensures err { OnErr result (HasFront [] (map (λ word. word.now) words.new.items) (words_of line.now)) }
{
    words.clear();
    let mut rest = line;
    while !rest.is_empty() {
        let (word, after) = cut(rest, b' ');
        if !word.is_empty() {
            words.push(word)?;
        }
        rest = after;
    }
    Ok(())
}

/// Whether a word is this one.
#[inline(always)]
pub fn is(word: &[u8], this: &[u8]) -> bool
    ensures { result ≡ bytes_eq word.now this.now }
{
    word == this
}

/// Whether a word is a number: decimal digits, without a sign, and without a leading zero but for `0` itself.
pub fn is_number(word: &[u8]) -> bool
    ensures { result ≡ is_number word.now }
{
    let [first, ..] = word else {
        return false;
    };
    are_digits(word) && (word.len() == 1 || *first != b'0')
}

fn are_digits(word: &[u8]) -> bool
    ensures { result ≡ list_all is_ascii_digit word.now }
{
    word.iter().all(|b| b.is_ascii_digit())
}

/// Whether a word is a number, or `-` and a number that isn't 0.
pub fn is_signed(word: &[u8]) -> bool
    ensures { result ≡ is_signed word.now }
{
    match word {
        [b'-', digits @ ..] => is_number(digits) && value(digits) != 0,
        _ => is_number(word),
    }
}

/// A signed number within the limits of a position, from -32,768 to 32,767; else `Limit`.
pub fn position(number: &[u8]) -> Result<i32, Kind>
    requires { is_signed number.now ≡ true }
    ensures { Yields (is_position number.now) (signed_value number.now) Kind.Limit result }
{
    match number {
        [b'-', digits @ ..] => below_zero(digits),
        _ => Ok(limited(number, 0, 32_767)? as i32),
    }
}

/// The number of a position that stands behind a `-`.
fn below_zero(digits: &[u8]) -> Result<i32, Kind>
    requires { is_number digits.now ≡ true }
    ensures { Yields (is_within 0 32768 digits.now) (pos 0 -ℤ pos (value digits.now)) Kind.Limit result }
{
    Ok(-(limited(digits, 0, 32_768)? as i32))
}

/// The bytes of HEX: an even number of digits 0 to 9 and a to f, of which the first of two is the byte's upper half;
/// of other words `Number`.
pub fn hex_bytes(alloc: Global, word: &[u8]) -> Result<Seq<u8>, Stop>
    ensures { Decodes (is_hex word.now) (hex_bytes word.now) result }
{
    if word.len() % 2 != 0 || !are_hex_digits(word) {
        return Err(Stop::Fault(Kind::Number));
    }
    let mut bytes = vec![in alloc; 0u8; word.len() / 2]?;
    decode(word, bytes.as_mut_slice());
    Ok(Seq::from_vec(bytes))
}

fn are_hex_digits(word: &[u8]) -> bool
    ensures { result ≡ list_all is_hex_digit word.now }
{
    let mut all = true;
    for b in word {
        // As in `are_printable`, many bytes at once.
        all &= is_hex_digit(*b);
    }
    all
}

#[inline(always)]
fn is_hex_digit(b: u8) -> bool
    ensures { result ≡ is_hex_digit b }
{
    (b >= b'0') & (b <= b'9') | (b >= b'a') & (b <= b'f')
}

/// Writes the bytes of pairs of digits. Each pair is read as one number, so that LLVM decodes many at once.
fn decode(word: &[u8], bytes: &mut [u8])
    requires size { length word.now ≡ 2 * length bytes.old }
    requires digits { list_all is_hex_digit word.now ≡ true }
    ensures { bytes.new ≡ hex_bytes word.now }
{
    let (pairs, _) = word.as_chunks::<2>();
    for i in 0..bytes.len() {
        bytes[i] = byte_of(pairs[i]);
    }
}

/// The byte of two digits.
#[inline(always)]
fn byte_of(pair: [u8; 2]) -> u8
    requires { list_all is_hex_digit pair ≡ true }
    ensures { hex_bytes pair ≡ result ∷ [] }
{
    let both = u16::from_le_bytes(pair);
    // A digit's lowest four bits, and 9 more for a letter: what the first says stands in the lower half.
    let digits = (both & 0x0f0f) + 9 * (both >> 6 & 0x0101);
    (digits % 16 * 16 + digits / 256) as u8
}

/// Whether a word is a name: a letter, and at most 15 letters or digits behind it.
pub fn is_name(word: &[u8]) -> bool
    ensures { result ≡ is_name word.now }
{
    let [first, ..] = word else {
        return false;
    };
    first.is_ascii_alphabetic() && are_letters_or_digits(word) && word.len() <= 16
}

fn are_letters_or_digits(word: &[u8]) -> bool
    ensures { result ≡ list_all is_ascii_alphanumeric word.now }
{
    word.iter().all(|b| b.is_ascii_alphanumeric())
}

/// What a number says, or the greatest `u64` where it says more.
pub fn value(number: &[u8]) -> u64
    requires { is_number number.now ≡ true }
    ensures { result ≡ min (value number.now) (2 ^ 64 - 1) }
{
    let mut sum = 0u64;
    for digit in number {
        sum = sum
            .saturating_mul(10)
            .saturating_add(u64::from(*digit - b'0'));
    }
    sum
}

/// A number from `low` to `high`; else `Limit`.
pub fn limited(number: &[u8], low: u32, high: u32) -> Result<u32, Kind>
    requires { is_number number.now ≡ true }
    ensures { Yields (is_within low high number.now) (value number.now) Kind.Limit result }
{
    let sum = value(number);
    if sum < u64::from(low) || u64::from(high) < sum {
        return Err(Kind::Limit);
    }
    Ok(sum as u32)
}

/// The bytes of HEX as `hex_bytes` has them, or none where the word is `-`.
pub fn bytes_or_none(alloc: Global, word: &[u8]) -> Result<Seq<u8>, Stop>
    ensures { Decodes (is_hex_or_none word.now) (bytes_or_none word.now) result }
{
    if is(word, b"-") {
        return Ok(Seq::from_vec(Vec::new(alloc)));
    }
    hex_bytes(alloc, word)
}

/// Refuses a word that is no number with `Number`.
pub fn spelled(word: &[u8]) -> Result<(), Kind>
    ensures { Passes (is_number word.now) Kind.Number result }
{
    if is_number(word) {
        return Ok(());
    }
    Err(Kind::Number)
}

/// Refuses two words of which one is no number with `Number`.
pub fn both_spelled(a: &[u8], b: &[u8]) -> Result<(), Kind>
    ensures kind { Passes (is_number a.now && is_number b.now) Kind.Number result }
    ensures a { OnOk result (is_number a.now ≡ true) }
    ensures b { OnOk result (is_number b.now ≡ true) }
{
    if is_number(a) && is_number(b) {
        return Ok(());
    }
    Err(Kind::Number)
}

/// The width and the height of a display or of a buffer in pixels, at most `MOST_WIDTH` and `MOST_HEIGHT`; else `Limit`.
pub fn size(width: &[u8], height: &[u8]) -> Result<(u32, u32), Kind>
    requires width { is_number width.now ≡ true }
    requires height { is_number height.now ≡ true }
    ensures { Yields (is_within 1 version_2.width width.now && is_within 1 version_2.height height.now)
        (value width.now, value height.now) Kind.Limit result }
{
    Ok((
        limited(width, 1, MOST_WIDTH)?,
        limited(height, 1, MOST_HEIGHT)?,
    ))
}
