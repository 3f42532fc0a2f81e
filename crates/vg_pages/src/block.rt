//! The bytes of a page, in memory of their own that others may share.

ghost use Rattle.std.specs.Prelude.{◌≡◌, ◌+◌, ◌≤◌, true, false, IfOk, length};
ghost use Rattle.vg_pages.specs.BlocksWithin.{spliced};

use crate::lazy::overwrite_part;
use std::alloc::{AllocError, Global};
use std::marker::Model;
use std::sync::Arc;

/// The bytes of a page. Who shares them keeps them as they were.
#[derive(Debug, Drop)]
pub(crate) struct Block {
    bytes: Arc<Vec<u8>>,
}

impl Model for Block {
    ghost use Rattle.std.specs.Prelude.{◌≡◌, ℕ, List, length};
    ghost use Rattle.std.specs.Arc.{arc_value};

    ghost Value = { List ℕ };

    ghost view = { λ b. (arc_value b.bytes).items };

    ghost invariant = { λ b. length (arc_value b.bytes).items ≡ 4096 };
}

impl Block {
    /// A block of these bytes.
    pub(crate) fn of(alloc: Global, bytes: Vec<u8>) -> Result<Block, AllocError>
        requires { length bytes.items ≡ 4096 }
        ensures { IfOk result (λ block. block ≡ bytes.items) }
    {
        let bytes = Arc::new(alloc, bytes)?;
        Ok(Block { bytes })
    }

    /// The same bytes, in the same place.
    pub(crate) fn share(&self) -> Result<Block, AllocError>
        ensures bytes { IfOk result (λ block. block ≡ self.now) }
        ensures size { length self.now ≡ 4096 }
    {
        let bytes = self.bytes.clone()?;
        Ok(Block { bytes })
    }

    /// The bytes.
    pub(crate) fn as_slice(&self) -> &[u8]
        ensures bytes { result.now ≡ self.now }
        ensures size { length self.now ≡ 4096 }
    {
        self.bytes.as_slice()
    }

    /// Writes these bytes from `from` on, unless somebody shares the block. Whether it did.
    pub(crate) fn write(&mut self, from: usize, bytes: &[u8]) -> bool
        requires { from + length bytes.now ≤ length self.old }
        ensures size { length self.old ≡ 4096 }
        ensures done { result ≡ true → self.new ≡ spliced from bytes.now self.old }
        ensures kept { result ≡ false → self.new ≡ self.old }
    {
        match Arc::get_mut(&mut self.bytes) {
            Some(page) => {
                overwrite_part(page.as_mut_slice(), from, bytes);
                true
            }
            None => false,
        }
    }
}
