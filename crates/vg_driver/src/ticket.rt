//! What a submitted command is known by, and what it is answered.

use vg_history::Fence;
use vg_machine::Reply;

/// A command that was submitted, by its fence and by its client's number for it.
#[derive(Clone, Copy, Debug, PartialEq, Eq)]
pub struct Ticket {
    pub fence: Fence,
    /// From 1.
    pub call: u64,
    /// Where the driver keeps its reply.
    pub(crate) place: usize,
}

/// What a command was answered, and the number of its entry in the history, from 1.
#[derive(Debug, Drop)]
pub struct Answer {
    pub entry: u64,
    pub reply: Reply,
}
