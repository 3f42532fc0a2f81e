//! Packed text that grows at its end.

ghost use Rattle.std.specs.Prelude.{◌≡◌, ◌++◌, [], OnOk, OnErr};
ghost use Rattle.std.specs.List.{concat};

use crate::packed::Packed;
use std::alloc::{AllocError, Global};
use std::marker::Model;
use std::mem::replace;

/// About how many bytes a piece has.
const PIECE: usize = 16_384;

/// Packed text that grows at its end, in pieces, so that none of it is moved as it grows, and it stands where there is memory
/// for a piece. A clause sees it as the list of its characters.
#[derive(Drop)]
pub struct Log {
    full: Vec<Packed>,
    last: Packed,
    alloc: Global,
}

impl Model for Log {
    ghost use Rattle.std.specs.Prelude.{ℕ, List, ◌++◌};
    ghost use Rattle.std.specs.List.{concat};

    ghost Value = { List ℕ };

    ghost view = { λ l. concat l.full.items ++ l.last };
}

impl Log {
    /// No text.
    pub fn new(alloc: Global) -> Log
        ensures { result ≡ [] }
    {
        Log {
            full: Vec::new(alloc),
            last: Packed::new(alloc),
            alloc,
        }
    }

    /// Adds text. For want of memory nothing changes.
    pub fn append(&mut self, more: &Packed) -> Result<(), AllocError>
        ensures ok { OnOk result (self.new ≡ self.old ++ more.now) }
        ensures err { OnErr result (self.new ≡ self.old) }
    {
        make_way(self.alloc, &mut self.full, &mut self.last, more.size())?;
        self.last.append(more)
    }

    /// Its pieces, and what stands behind them.
    pub fn pieces(&self) -> (&[Packed], &Packed)
        ensures { concat result.0.now ++ result.1.now ≡ self.now }
    {
        (self.full.as_slice(), &self.last)
    }
}

/// Where the last piece with so many bytes more would be too long, it is full, and the next one begins.
fn make_way(
    alloc: Global,
    full: &mut Vec<Packed>,
    last: &mut Packed,
    more: usize,
) -> Result<(), AllocError>
    ensures { concat full.new.items ++ last.new ≡ concat full.old.items ++ last.old }
{
    if last.size().saturating_add(more) > PIECE {
        full.reserve(1)?;
        let next = Packed::with_room(alloc, PIECE)?;
        full.push_reserved(replace(last, next));
    }
    Ok(())
}
