//! Packed text, as it reads.

ghost use Rattle.std.specs.Prelude.{◌≡◌, ◌≤◌, ◌<◌, ◌+◌, ◌*◌, ◌++◌, [], true, false, length, slice_index, take, drop, replicate, IfOk, OnErr, OnOk};
ghost use Rattle.hex.specs.Hex.{encode_lower};
ghost use Rattle.vg_text.specs.Text.{are_characters};
ghost use Rattle.vg_text.specs.Packing.{left, unpacked};

use crate::digits::spell;
use crate::marks::told;
use std::alloc::AllocError;
use std::marker::Model;

/// How many characters move at once.
const MOST: usize = 4_096;

/// What is left to read of a packed text. A clause sees it as the list of its characters.
#[derive(Drop)]
pub struct Spelling<'a> {
    rest: &'a [u8],
}

impl<'a> Model for Spelling<'a> {
    ghost use Rattle.std.specs.Prelude.{◌≡◌, ℕ, List};
    ghost use Rattle.vg_text.specs.Packing.{left, unpacked};

    ghost Value = { List ℕ };

    ghost view = { λ s. unpacked 0 s.rest.now };

    ghost invariant = { λ s. left 0 s.rest.now ≡ 0 };
}

impl<'a> Spelling<'a> {
    /// The text of packed bytes.
    pub(crate) fn of(packed: &'a [u8]) -> Spelling<'a>
        requires { left 0 packed.now ≡ 0 }
        ensures { result ≡ unpacked 0 packed.now }
    {
        Spelling { rest: packed }
    }

    /// Whether nothing is left.
    pub fn is_done(&self) -> bool
        ensures done { result ≡ true → self.now ≡ [] }
        ensures more { result ≡ false → 0 < length self.now }
    {
        self.rest.is_empty()
    }

    /// Moves the next of the text to the end of `out`: up to 4,096 characters, two of them for each byte in digits. For want of
    /// memory nothing is read.
    pub fn put_next(&mut self, out: &mut Vec<u8>) -> Result<(), AllocError>
        requires { 0 < length self.old }
        ensures moved { OnOk result (out.new.items ++ self.new ≡ out.old.items ++ self.old) }
        ensures falls { OnOk result (length self.new < length self.old) }
        ensures few { OnOk result (length self.old ≤ length self.new + 4096) }
        ensures err { OnErr result ((self.new ≡ self.old) × (out.new.items ≡ out.old.items)) }
    {
        let end = put_part(self.rest, out)?;
        self.rest = rest_of(self.rest, end);
        Ok(())
    }
}

/// Adds the text of the first of these bytes, and tells how many they are.
fn put_part(packed: &[u8], out: &mut Vec<u8>) -> Result<usize, AllocError>
    requires some { 0 < length packed.now }
    requires whole { left 0 packed.now ≡ 0 }
    ensures text { IfOk result (λ end. out.new.items ≡ out.old.items ++ unpacked 0 (take end packed.now)) }
    ensures whole { IfOk result (λ end. left 0 (take end packed.now) ≡ 0) }
    ensures some { IfOk result (λ end. (0 < end) × (end ≤ length packed.now)) }
    ensures few { OnOk result (length out.new.items ≤ length out.old.items + 4096) }
    ensures err { OnErr result (out.new.items ≡ out.old.items) }
{
    let first = packed[0];
    if first < 128 {
        let end = characters(packed);
        out.extend_from_slice(&packed[..end])?;
        Ok(end)
    } else if first < 224 {
        let count = told(first);
        put_digits(out, part_of(packed, count))?;
        Ok(1 + count)
    } else {
        put_zeros(out, first as usize - 223)?;
        Ok(1)
    }
}

/// What stands behind the first of these bytes, so many.
fn rest_of(packed: &[u8], end: usize) -> &[u8]
    requires { end ≤ length packed.now }
    ensures { result.now ≡ drop end packed.now }
{
    &packed[end..]
}

/// So many bytes behind the first.
fn part_of(packed: &[u8], count: usize) -> &[u8]
    requires { 1 + count ≤ length packed.now }
    ensures { result.now ≡ take count (drop 1 packed.now) }
{
    &packed[1..1 + count]
}

/// How many characters these bytes begin with, as far as that many move at once.
fn characters(packed: &[u8]) -> usize
    requires { (0 < length packed.now) × (slice_index packed.now 0 < 128) }
    ensures fits { (0 < result) × (result ≤ length packed.now) }
    ensures few { result ≤ 4096 }
    ensures are { are_characters (take result packed.now) ≡ true }
{
    let most = packed.len().min(MOST);
    for count in 1..most {
        if packed[count] >= 128 {
            return count;
        }
    }
    most
}

/// Adds bytes as digits, which are written where they are to stand.
fn put_digits(out: &mut Vec<u8>, bytes: &[u8]) -> Result<(), AllocError>
    ensures text { OnOk result (out.new.items ≡ out.old.items ++ encode_lower bytes.now) }
    ensures few { OnOk result (length out.new.items ≤ length out.old.items + 2 * length bytes.now) }
    ensures err { OnErr result (out.new.items ≡ out.old.items) }
{
    let at = out.len();
    out.resize(at.saturating_add(2 * bytes.len()), 0)?;
    spell(bytes, &mut out.as_mut_slice()[at..]);
    Ok(())
}

/// Adds the digits of so many bytes of 0.
fn put_zeros(out: &mut Vec<u8>, count: usize) -> Result<(), AllocError>
    requires { count ≤ 32 }
    ensures text { OnOk result (out.new.items ≡ out.old.items ++ encode_lower (replicate count 0)) }
    ensures few { OnOk result (length out.new.items ≤ length out.old.items + 2 * count) }
    ensures err { OnErr result (out.new.items ≡ out.old.items) }
{
    let at = out.len();
    out.resize(at.saturating_add(2 * count), b'0')
}
