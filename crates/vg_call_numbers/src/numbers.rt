//! The numbers that a client's calls have used.

ghost use Rattle.std.specs.Prelude.{◌≡◌, ◌≤◌, ◌<◌, ◌^◌, ◌↔◌, [], false, IsTrue, OnErr, OnOk};
ghost use Rattle.vg_call_numbers.specs.Numbers.{AreAllUsed, IsAdded, IsGreatest, is_used};

use crate::gaps::{fill, gap_of, open};
use std::alloc::{AllocError, Global};
use std::collections::BTreeMap;
use std::marker::Model;

/// The call numbers that a client has used. It is small where they come nearly in rising order, and they may come in any.
#[derive(Drop)]
pub struct CallNumbers {
    /// The greatest, 0 where none is used.
    top: u64,
    /// The ranges below it of which no number is used.
    gaps: BTreeMap<u64, u64>,
}

impl Model for CallNumbers {
    ghost use Rattle.vg_call_numbers.specs.Numbers.{UsedNumbers};
    ghost use Rattle.vg_call_numbers.specs.GapsWithin.{AreApart, AreBelow};

    ghost Value = { UsedNumbers };

    ghost view = { λ n. record { top = n.top; gaps = n.gaps.entries } };

    ghost invariant = { λ n. AreApart n.gaps × AreBelow n.gaps n.top };
}

impl CallNumbers {
    /// No number is used. This takes no memory.
    pub fn new(alloc: Global) -> CallNumbers
        ensures { result ≡ record { top = 0; gaps = [] } }
    {
        CallNumbers {
            top: 0,
            gaps: BTreeMap::new(alloc),
        }
    }

    /// The greatest number that is used, 0 where none is.
    pub fn top(&self) -> u64
        ensures value { result ≡ self.now.top }
        ensures greatest { IsGreatest self.now result }
    {
        self.top
    }

    /// Whether the number is used.
    pub fn has(&self, number: u64) -> bool
        ensures { result ≡ is_used self.now number }
    {
        1 <= number && number <= self.top && gap_of(&self.gaps, number).is_none()
    }

    /// Uses a number that isn't used yet.
    pub fn add(&mut self, number: u64) -> Result<(), AllocError>
        requires counted { 1 ≤ number }
        requires limit { number < 2 ^ 63 }
        requires fresh { is_used self.old number ≡ false }
        ensures ok { OnOk result (IsAdded self.old number self.new) }
        ensures err { OnErr result (self.new ≡ self.old) }
    {
        if self.top < number {
            open(&mut self.gaps, self.top, number)?;
            self.top = number;
        } else {
            fill(&mut self.gaps, number)?;
        }
        Ok(())
    }

    /// Whether each number from 1 to the greatest is used.
    pub fn are_all(&self) -> bool
        ensures { IsTrue result ↔ AreAllUsed self.now }
    {
        self.gaps.is_empty()
    }
}
