//! A strip: bytes of a block that others may share.

ghost use Rattle.std.specs.Prelude.{◌≡◌, ◌+◌, ◌≤◌, drop, length, take, IfOk};
ghost use Rattle.std.specs.Arc.{arc_slice_items};

use std::alloc::AllocError;
use std::marker::Model;
use std::sync::ArcSlice;

/// So many bytes of a block, from a place on.
#[derive(Drop)]
pub(crate) struct Strip {
    block: ArcSlice<u8>,
    from: usize,
    len: usize,
}

impl Model for Strip {
    ghost use Rattle.std.specs.Prelude.{ℕ, ◌+◌, ◌≤◌, List, drop, length, take};
    ghost use Rattle.std.specs.Arc.{arc_slice_items};

    ghost Value = { List ℕ };

    ghost view = { λ s. take s.len (drop s.from (arc_slice_items s.block)) };

    ghost invariant = { λ s. s.from + s.len ≤ length (arc_slice_items s.block) };
}

impl Strip {
    /// So many bytes of a block, from this place on.
    pub(crate) fn of(block: &ArcSlice<u8>, from: usize, len: usize) -> Result<Strip, AllocError>
        requires { from + len ≤ length (arc_slice_items block.now) }
        ensures { IfOk result (λ strip. strip ≡ take len (drop from (arc_slice_items block.now))) }
    {
        let block = block.clone()?;
        Ok(Strip { block, from, len })
    }

    /// The same bytes of the same block.
    pub(crate) fn share(&self) -> Result<Strip, AllocError>
        ensures { IfOk result (λ strip. strip ≡ self.now) }
    {
        Strip::of(&self.block, self.from, self.len)
    }

    /// The bytes.
    pub(crate) fn as_slice(&self) -> &[u8]
        ensures { result.now ≡ self.now }
    {
        part_of(self.block.as_slice(), self.from, self.len)
    }
}

/// The bytes from this place on.
pub(crate) fn rest_of(bytes: &[u8], from: usize) -> &[u8]
    requires { from ≤ length bytes.now }
    ensures { result.now ≡ drop from bytes.now }
{
    &bytes[from..]
}

/// The first bytes, at most so many.
pub(crate) fn start_of(bytes: &[u8], most: usize) -> &[u8]
    ensures { result.now ≡ take most bytes.now }
{
    if bytes.len() < most {
        bytes
    } else {
        &bytes[..most]
    }
}

/// So many of these bytes, from this place on.
fn part_of(bytes: &[u8], from: usize, len: usize) -> &[u8]
    requires { from + len ≤ length bytes.now }
    ensures { result.now ≡ take len (drop from bytes.now) }
{
    &bytes[from..from + len]
}
