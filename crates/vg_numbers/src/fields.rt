//! One number in its bytes, the lowest first.

ghost use Rattle.std.specs.Prelude.{◌≡◌, ◌+◌, ◌≤◌, ◌++◌, length, OnErr, OnOk};
ghost use Rattle.vg_numbers.specs.Numbers.{number_at, le};

use byteorder::{ByteOrder, LittleEndian};
use std::alloc::AllocError;

/// The number in the two bytes from place `at`.
pub fn u16_at(bytes: &[u8], at: usize) -> u16
    requires { at + 2 ≤ length bytes.now }
    ensures { result ≡ number_at 2 at bytes.now }
{
    LittleEndian::read_u16(&bytes[at..])
}

/// The number in the four bytes from place `at`.
pub fn u32_at(bytes: &[u8], at: usize) -> u32
    requires { at + 4 ≤ length bytes.now }
    ensures { result ≡ number_at 4 at bytes.now }
{
    LittleEndian::read_u32(&bytes[at..])
}

/// The number in the eight bytes from place `at`.
pub fn u64_at(bytes: &[u8], at: usize) -> u64
    requires { at + 8 ≤ length bytes.now }
    ensures { result ≡ number_at 8 at bytes.now }
{
    LittleEndian::read_u64(&bytes[at..])
}

/// Adds the two bytes of a number. For want of memory nothing changes.
#[tactic(auto, unfolding(crate::specs::Numbers::le))]
pub fn put_u16(out: &mut Vec<u8>, n: u16) -> Result<(), AllocError>
    ensures bytes { OnOk result (out.new.items ≡ out.old.items ++ le 2 n) }
    ensures err { OnErr result (out.new.items ≡ out.old.items) }
{
    let mut field = [0u8; 2];
    LittleEndian::write_u16(&mut field, n);
    out.extend_from_slice(&field)
}

/// Adds the four bytes of a number. For want of memory nothing changes.
#[tactic(auto, unfolding(crate::specs::Numbers::le))]
pub fn put_u32(out: &mut Vec<u8>, n: u32) -> Result<(), AllocError>
    ensures bytes { OnOk result (out.new.items ≡ out.old.items ++ le 4 n) }
    ensures err { OnErr result (out.new.items ≡ out.old.items) }
{
    let mut field = [0u8; 4];
    LittleEndian::write_u32(&mut field, n);
    out.extend_from_slice(&field)
}

/// Adds the eight bytes of a number. For want of memory nothing changes.
#[tactic(auto, unfolding(crate::specs::Numbers::le))]
pub fn put_u64(out: &mut Vec<u8>, n: u64) -> Result<(), AllocError>
    ensures bytes { OnOk result (out.new.items ≡ out.old.items ++ le 8 n) }
    ensures err { OnErr result (out.new.items ≡ out.old.items) }
{
    let mut field = [0u8; 8];
    LittleEndian::write_u64(&mut field, n);
    out.extend_from_slice(&field)
}
