//! Fields that no 2D command has.

ghost use Rattle.std.specs.Prelude.{◌≡◌, ◌+◌, ◌≤◌, ◌<◌, ◌^◌, ◌++◌, length, OnOk, FitsSigned};
ghost use Rattle.std.specs.Int.{w32};
ghost use Rattle.vg_numbers.specs.Numbers.{le};
ghost use Rattle.vg_wire_ext.specs.Fields.{planes, position, signed_at, signed_bytes};

use std::alloc::AllocError;
use vg_numbers::{put_u32, u32_at};

/// The signed number in the four bytes from place `at`, in two's complement.
#[tactic(auto, unfolding(crate::specs::Fields::signed_at))]
pub(crate) fn i32_at(bytes: &[u8], at: usize) -> i32
    requires { at + 4 ≤ length bytes.now }
    ensures { result ≡ signed_at at bytes.now }
{
    u32_at(bytes, at).cast_signed()
}

/// Adds the four bytes of a signed number, in two's complement.
#[tactic(auto, unfolding(crate::specs::Fields::signed_bytes))]
fn put_i32(out: &mut Vec<u8>, n: i32) -> Result<(), AllocError>
    ensures bytes { OnOk result (out.new.items ≡ out.old.items ++ signed_bytes n) }
    ensures fits { FitsSigned w32 n }
{
    put_u32(out, n.cast_unsigned())
}

/// Adds where a cursor is: the scanout, the two numbers of the place, and four bytes of padding.
#[tactic(auto, unfolding(crate::specs::Fields::position))]
pub(crate) fn put_position(
    out: &mut Vec<u8>,
    scanout: u32,
    x: i32,
    y: i32,
) -> Result<(), AllocError>
    ensures bytes { OnOk result (out.new.items ≡ out.old.items ++ position scanout x y) }
    ensures scanout { scanout < 2 ^ 32 }
    ensures x { FitsSigned w32 x }
    ensures y { FitsSigned w32 y }
{
    put_u32(out, scanout)?;
    put_i32(out, x)?;
    put_i32(out, y)?;
    put_u32(out, 0)
}

/// Adds a number for each of four planes: this one for plane 0, and 0 for the others.
#[tactic(auto, unfolding(crate::specs::Fields::planes))]
pub(crate) fn put_planes(out: &mut Vec<u8>, first: u32) -> Result<(), AllocError>
    ensures bytes { OnOk result (out.new.items ≡ out.old.items ++ planes first) }
    ensures fits { first < 2 ^ 32 }
{
    put_u32(out, first)?;
    put_u32(out, 0)?;
    put_u32(out, 0)?;
    put_u32(out, 0)
}
