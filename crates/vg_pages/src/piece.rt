//! Bytes of one page, as they were at some time.

ghost use Rattle.std.specs.Prelude.{◌≡◌, ◌+◌, ◌≤◌, length, replicate, take, drop};
ghost use Rattle.vg_pages.specs.BlocksWithin.{shared_bytes};

use crate::block::Block;
use std::marker::Model;

/// Bytes of one page, as they were when they were shared.
#[derive(Drop)]
pub struct Piece {
    /// The page's bytes, or none where they are all 0.
    block: Option<Block>,
    from: usize,
    count: usize,
}

impl Model for Piece {
    ghost use Rattle.std.specs.Prelude.{◌≡◌, ◌+◌, ◌≤◌, ℕ, List, length, take, drop};
    ghost use Rattle.vg_pages.specs.BlocksWithin.{shared_bytes};

    ghost Value = { List ℕ };

    ghost view = { λ p. take p.count (drop p.from (shared_bytes p.block)) };

    ghost invariant = { λ p. (p.from + p.count ≤ 4096) × (length (shared_bytes p.block) ≡ 4096) };
}

impl Piece {
    /// So many bytes of the page, from its byte `from` on.
    pub(crate) fn of(block: Option<Block>, from: usize, count: usize) -> Piece
        requires inside { from + count ≤ 4096 }
        requires size { length (shared_bytes block) ≡ 4096 }
        ensures { result ≡ take count (drop from (shared_bytes block)) }
    {
        Piece { block, from, count }
    }

    /// How many bytes there are.
    pub fn len(&self) -> usize
        ensures { result ≡ length self.now }
    {
        self.count
    }

    /// Copies the first bytes into `out`, as many as it has.
    pub fn read(&self, out: &mut [u8])
        requires { length out.old ≤ length self.now }
        ensures { out.new ≡ take (length out.old) self.now }
    {
        match &self.block {
            Some(block) => out.copy_from_slice(&block.as_slice()[self.from..self.from + out.len()]),
            None => fill_zeros(out),
        }
    }

    /// Leaves the first bytes out, so many.
    pub fn skip(&mut self, count: usize)
        requires { count ≤ length self.old }
        ensures { self.new ≡ drop count self.old }
    {
        self.from += count;
        self.count -= count;
    }
}

fn fill_zeros(out: &mut [u8])
    ensures { out.new ≡ replicate (length out.old) 0 }
{
    out.fill(0);
}
