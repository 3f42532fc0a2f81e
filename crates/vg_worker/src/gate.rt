//! Where a worker can be held up.

/// What a worker passes with each command that it takes. A test orders workers by it.
pub trait Gate: Sync {
    /// The command was taken, and is about to be run or, where commands go back unrun, to be given back.
    fn before(&self, lane: u32, ordinal: u64);

    /// The command was completed on the ring.
    fn answered(&self, lane: u32, ordinal: u64);
}

/// What a worker needs of a gate: the same calls, of a value that other threads need not share. A job's method may not rest on
/// `Sync`.
pub trait Passage {
    /// As `Gate::before`.
    fn pass_before(&self, lane: u32, ordinal: u64);

    /// As `Gate::answered`.
    fn pass_answered(&self, lane: u32, ordinal: u64);
}

impl<G: Gate> Passage for G {
    fn pass_before(&self, lane: u32, ordinal: u64) {
        self.before(lane, ordinal);
    }

    fn pass_answered(&self, lane: u32, ordinal: u64) {
        self.answered(lane, ordinal);
    }
}

/// A gate that holds nobody up.
pub struct FreeGate;

impl Gate for FreeGate {
    fn before(&self, _lane: u32, _ordinal: u64) {}

    fn answered(&self, _lane: u32, _ordinal: u64) {}
}
