//! A command as it came to the device, and what it is answered.

use vg_chain::{ChainFault, Shape};
use vg_list::Seq;
use vg_wire::Queue;

/// A command as it came to the device.
#[derive(Drop)]
pub struct Request {
    pub queue: Queue,
    /// The lane that it belongs to, 0 to 65.
    pub lane: u32,
    /// Its number among the commands of its lane, from 1.
    pub ordinal: u64,
    /// How many bytes there are for the response.
    pub room: u32,
    /// How the request and its room are laid out in descriptors.
    pub shape: Shape,
    pub bytes: Seq<u8>,
}

/// What a command is answered.
#[derive(Debug, Drop)]
pub enum Reply {
    /// The response's bytes, cut to the request's room.
    Response { bytes: Seq<u8> },
    /// The fault of the request's descriptor chain, which was not run.
    Fault { fault: ChainFault },
}
