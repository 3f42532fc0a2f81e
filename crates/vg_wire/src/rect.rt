//! A rectangle in its bytes (VIRTIO 1.2, 5.7.6.8).

ghost use Rattle.std.specs.Prelude.{◌≡◌, ◌+◌, ◌≤◌, ◌++◌, length, OnErr, OnOk};
ghost use Rattle.vg_list.specs.Front.{HasFront};
ghost use Rattle.vg_wire.specs.Rect as layout;
ghost use Rattle.vg_wire.specs.Rect.{rect_bytes, IsRect};

use std::alloc::AllocError;
use vg_formats::Rect;
use vg_numbers::{put_u32, u32_at};

/// The rectangle whose 16 bytes stand from place `at`.
pub fn rect_at(bytes: &[u8], at: usize) -> Rect
    requires { at + 16 ≤ length bytes.now }
    ensures { result ≡ layout.rect_at at bytes.now }
{
    Rect {
        x: u32_at(bytes, at),
        y: u32_at(bytes, at + 4),
        width: u32_at(bytes, at + 8),
        height: u32_at(bytes, at + 12),
    }
}

/// Adds the 16 bytes of a rectangle. For want of memory a front of them is added.
#[tactic(auto, unfolding(crate::specs::Rect::rect_bytes), using(vg_list::proofs::FrontLemmas::fronts))]
pub fn put_rect(out: &mut Vec<u8>, rect: Rect) -> Result<(), AllocError>
    ensures bytes { OnOk result (out.new.items ≡ out.old.items ++ rect_bytes rect) }
    ensures err { OnErr result (HasFront out.old.items out.new.items (rect_bytes rect)) }
    ensures fits { IsRect rect }
{
    put_u32(out, rect.x)?;
    put_u32(out, rect.y)?;
    put_u32(out, rect.width)?;
    put_u32(out, rect.height)
}
