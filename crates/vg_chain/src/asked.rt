//! One command as it is asked for.

use crate::shape::Shape;
use vg_list::Seq;
use vg_wire::Queue;

/// A command: the queue on which it is made available, the bytes of its request, how many bytes of room there are for its
/// response, and the shape of the chain of descriptors that leads to both.
#[derive(Drop)]
pub struct Asked {
    pub queue: Queue,
    pub bytes: Seq<u8>,
    pub room: u32,
    pub shape: Shape,
}
