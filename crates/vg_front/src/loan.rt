//! The right to a cargo of either ring.

ghost use Rattle.std.specs.Prelude.{◌≡◌};
ghost use Rattle.vg_cargo.specs.Entries.{head_of};
ghost use Rattle.vg_front.specs.Loans.{right_of};

use std::marker::Model;
use vg_cargo::Tag;
use vg_ring::{ControlOf, CursorOf, Right, Rings};

/// The right to a cargo that is lent to a worker, by the queue that it came on.
#[derive(Drop)]
pub enum Loan<N: Rings> {
    Control(Right<ControlOf<N>>),
    Cursor(Right<CursorOf<N>>),
}

impl<N: Rings> Loan<N> {
    /// The place of the head descriptor.
    pub fn head(&self) -> u16
        ensures { result ≡ head_of (right_of self.now).entry }
    {
        match self {
            Loan::Control(right) => right.head(),
            Loan::Cursor(right) => right.head(),
        }
    }

    /// The cargo's lane and ordinal.
    pub fn tag(&self) -> Tag
        ensures { (result.lane ≡ (right_of self.now).entry.lane) × (result.ordinal ≡ (right_of self.now).entry.ordinal) }
    {
        match self {
            Loan::Control(right) => right.tag(),
            Loan::Cursor(right) => right.tag(),
        }
    }

    /// Whether the cargo's chain was walked.
    pub fn walked(&self) -> bool
        ensures { result ≡ (right_of self.now).walked }
    {
        match self {
            Loan::Control(right) => right.walked(),
            Loan::Cursor(right) => right.walked(),
        }
    }
}
