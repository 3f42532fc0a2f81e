//! The entries of a ring's lists: plain data that proofs alone read.

use std::collections::LinkedList;
use vg_chain::Shape;
use vg_wire::Queue;

/// A cargo that was published: the places of its descriptors, the head first, and the cargo's parts.
pub struct Entry {
    pub places: LinkedList<u16>,
    pub queue: Queue,
    pub lane: u32,
    pub ordinal: u64,
    pub shape: Shape,
    pub request: LinkedList<u8>,
    pub room: u32,
}

/// A cargo that was completed, with the used length and the response.
pub struct Answer {
    pub entry: Entry,
    pub len: u32,
    pub response: LinkedList<u8>,
}
