//! The place of a command among those of its lane.

ghost use Rattle.std.specs.Prelude.{◌≡◌, ◌≤◌, ◌<◌, ◌^◌};

use std::marker::Model;

/// The place of a command on its lane: the lane, from 0 to 65, and the ordinal there, from 1.
#[derive(Clone, Copy, Debug, PartialEq, Eq)]
pub struct Fence {
    lane: u32,
    ordinal: u64,
}

impl Model for Fence {
    ghost use Rattle.vg_history.specs.Fences.{FenceData, IsFence};

    ghost Value = { FenceData };

    ghost view = { λ f. record { lane = f.lane; ordinal = f.ordinal } };

    ghost invariant = { λ f. IsFence f.lane f.ordinal };

    ghost inverse = { λ d. record { lane = d.lane; ordinal = d.ordinal } };
}

impl Fence {
    /// The place of this ordinal on this lane.
    pub fn new(lane: u32, ordinal: u64) -> Fence
        requires lane { lane < 66 }
        requires ordinal { (1 ≤ ordinal) × (ordinal < 2 ^ 63) }
        ensures { result ≡ record { lane = lane; ordinal = ordinal } }
    {
        Fence { lane, ordinal }
    }

    /// From 0 to 65.
    pub fn lane(&self) -> u32
        ensures lane { result ≡ self.now.lane }
        ensures bound { result < 66 }
    {
        self.lane
    }

    /// From 1.
    pub fn ordinal(&self) -> u64
        ensures ordinal { result ≡ self.now.ordinal }
        ensures bound { (1 ≤ result) × (result < 2 ^ 63) }
    {
        self.ordinal
    }
}
