//! Packed text, as it is written.

ghost use Rattle.std.specs.Prelude.{◌≡◌, ◌≤◌, ◌<◌, ◌+◌, ◌-◌, ◌++◌, [], true, length, take, drop, replicate, IfOk, OnOk, OnErr};
ghost use Rattle.hex.specs.Hex.{encode_lower};
ghost use Rattle.vg_list.specs.Front.{HasFront};
ghost use Rattle.vg_text.specs.Packing.{said, next};
ghost use Rattle.vg_text.specs.Text.{are_characters, hex_text};

use crate::marks::tell;
use crate::spelling::Spelling;
use std::alloc::{AllocError, Global};
use std::marker::Model;

/// The most bytes of 0 that one byte stands for.
const ZEROS: usize = 32;

/// So many bytes of 0 are told of as such where more bytes stand behind them, and fewer are not.
const SOME_ZEROS: usize = 3;

/// Up to how many bytes are searched for some of 0 among them.
const SHORT: usize = 256;

/// Text, held packed. A clause sees it as the list of its characters.
///
/// A byte below 128 is a character. One from 128 says how many bytes follow that are spelled as two digits each: 127 less from
/// 128 to 191, and 64 times 191 less from 192 to 223. One from 224 stands for so many bytes of 0, 223 less.
#[derive(Drop)]
pub struct Packed {
    bytes: Vec<u8>,
}

impl Model for Packed {
    ghost use Rattle.std.specs.Prelude.{◌≡◌, ℕ, List};
    ghost use Rattle.vg_text.specs.Packing.{left, unpacked};

    ghost Value = { List ℕ };

    ghost view = { λ p. unpacked 0 p.bytes.items };

    ghost invariant = { λ p. left 0 p.bytes.items ≡ 0 };
}

impl Packed {
    /// No text.
    pub fn new(alloc: Global) -> Packed
        ensures { result ≡ [] }
    {
        Packed {
            bytes: Vec::new(alloc),
        }
    }

    /// No text, with room for so many bytes.
    pub(crate) fn with_room(alloc: Global, room: usize) -> Result<Packed, AllocError>
        ensures { IfOk result (λ p. p ≡ []) }
    {
        let bytes = Vec::with_capacity(alloc, room)?;
        Ok(Packed { bytes })
    }

    /// How many bytes it takes.
    pub(crate) fn size(&self) -> usize {
        self.bytes.len()
    }

    /// Takes all text away. What memory it took stays.
    pub fn clear(&mut self)
        ensures { self.new ≡ [] }
    {
        self.bytes.clear();
    }

    /// Adds characters. For want of memory nothing changes.
    pub fn put(&mut self, text: &[u8]) -> Result<(), AllocError>
        requires { are_characters text.now ≡ true }
        ensures ok { OnOk result (self.new ≡ self.old ++ text.now) }
        ensures err { OnErr result (self.new ≡ self.old) }
    {
        self.bytes.extend_from_slice(text)
    }

    /// Adds bytes as lower-case hexadecimal digits, `-` for none. For want of memory a front of them is added.
    pub fn put_hex(&mut self, bytes: &[u8]) -> Result<(), AllocError>
        ensures ok { OnOk result (self.new ≡ self.old ++ hex_text bytes.now) }
        ensures err { OnErr result (HasFront self.old self.new (hex_text bytes.now)) }
    {
        if bytes.is_empty() {
            return self.put(b"-");
        }
        let mut at = 0;
        while at < bytes.len() {
            at = self.put_part(bytes, at)?;
        }
        Ok(())
    }

    /// Adds some of these bytes as digits, from a place on, and tells the place behind them. For want of memory nothing changes.
    fn put_part(&mut self, bytes: &[u8], at: usize) -> Result<usize, AllocError>
        requires { at < length bytes.now }
        ensures text { IfOk result (λ end. self.new ≡ self.old ++ encode_lower (take (end - at) (drop at bytes.now))) }
        ensures within { IfOk result (λ end. (at < end) × (end ≤ length bytes.now)) }
        ensures err { OnErr result (self.new ≡ self.old) }
    {
        let zeros = zeros_at(bytes, at);
        if zeros >= SOME_ZEROS || at + zeros == bytes.len() {
            self.put_zeros(zeros)?;
            Ok(at + zeros)
        } else {
            let (first, count) = tell(others_at(bytes, at));
            self.put_piece(first, &bytes[at..at + count])?;
            Ok(at + count)
        }
    }

    /// Adds so many bytes of 0 as digits.
    fn put_zeros(&mut self, count: usize) -> Result<(), AllocError>
        requires { (1 ≤ count) × (count ≤ 32) }
        ensures ok { OnOk result (self.new ≡ self.old ++ encode_lower (replicate count 0)) }
        ensures err { OnErr result (self.new ≡ self.old) }
    {
        self.bytes.push(223 + count as u8)?;
        Ok(())
    }

    /// Adds bytes as digits, behind the byte that tells of them.
    fn put_piece(&mut self, first: u8, bytes: &[u8]) -> Result<(), AllocError>
        requires says { said 0 first ≡ [] }
        requires next { next 0 first ≡ length bytes.now }
        ensures ok { OnOk result (self.new ≡ self.old ++ encode_lower bytes.now) }
        ensures err { OnErr result (self.new ≡ self.old) }
    {
        self.bytes.reserve(1 + bytes.len())?;
        self.bytes.push_reserved(first);
        self.bytes.extend_from_slice(bytes)
    }

    /// Adds the text of another. For want of memory nothing changes.
    pub fn append(&mut self, more: &Packed) -> Result<(), AllocError>
        ensures ok { OnOk result (self.new ≡ self.old ++ more.now) }
        ensures err { OnErr result (self.new ≡ self.old) }
    {
        self.bytes.extend_from_slice(more.bytes.as_slice())
    }

    /// The text as it reads, to be had a part at a time.
    pub fn spelling(&self) -> Spelling<'_>
        ensures { result ≡ self.now }
    {
        Spelling::of(self.bytes.as_slice())
    }
}

/// How many bytes of 0 there are from a place on, at most 32.
fn zeros_at(bytes: &[u8], at: usize) -> usize
    requires { at < length bytes.now }
    ensures size { result ≤ 32 }
    ensures within { at + result ≤ length bytes.now }
    ensures zeros { take result (drop at bytes.now) ≡ replicate result 0 }
{
    let most = (bytes.len() - at).min(ZEROS);
    for count in 0..most {
        if bytes[at + count] != 0 {
            return count;
        }
    }
    most
}

/// How many bytes there are from a place on that are better told of as they are: up to the next three of 0, where there are few.
fn others_at(bytes: &[u8], at: usize) -> usize
    requires { at < length bytes.now }
    ensures some { 1 ≤ result }
    ensures within { at + result ≤ length bytes.now }
{
    let most = bytes.len() - at;
    if most <= SHORT {
        let mut zeros = 0;
        for count in 0..most {
            zeros = if bytes[at + count] == 0 { zeros + 1 } else { 0 };
            if zeros == SOME_ZEROS && count >= SOME_ZEROS {
                return count + 1 - SOME_ZEROS;
            }
        }
    }
    most
}
