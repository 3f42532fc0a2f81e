//! What a client asks of the device.

ghost use Rattle.std.specs.Prelude.{◌≡◌, ◌<◌, IfOk, IfSome};
ghost use Rattle.vg_client_holds.specs.Holds.{Deniable};
ghost use Rattle.vg_driver.specs.Asks as asks;
ghost use Rattle.vg_driver.specs.Asks.{IsAsk, IsMadeFor, IsNeededFor};

use crate::request::{Way, denied_by, lane_by, needed_by, queue_by, raw_request, request_by};
use std::alloc::{AllocError, Global};
use vg_chain::Shape;
use vg_list::Seq;
use vg_machine::{Holds, Request, What, denied, lane_of};
use vg_wire::Queue;
use vg_wire_ext::Command;

/// A request before it has its ordinal.
#[derive(Drop)]
pub enum Ask {
    /// A command that goes this way.
    Command {
        way: Way,
        command: Command,
    },
    /// Bytes for a queue, as they are, with so many bytes for the response.
    Raw {
        queue: Queue,
        room: u32,
        shape: Shape,
        bytes: Seq<u8>,
    },
}

impl Ask {
    /// The queue that it goes by.
    pub fn queue(&self) -> Queue
        ensures { result ≡ asks.queue_for self.now }
    {
        match self {
            Ask::Command { way, .. } => queue_by(*way),
            Ask::Raw { queue, .. } => *queue,
        }
    }

    /// The lane that it goes by.
    pub(crate) fn lane(&self) -> u32
        requires { IsAsk self.now }
        ensures lane { result ≡ asks.lane_for self.now }
        ensures small { result < 66 }
    {
        match self {
            Ask::Command { way, .. } => lane_by(*way),
            Ask::Raw { queue, bytes, .. } => lane_of(*queue, bytes.as_slice()),
        }
    }

    /// How many descriptors it needs.
    pub(crate) fn needed(&self) -> u16
        requires { IsAsk self.now }
        ensures { IsNeededFor self.now result }
    {
        match self {
            Ask::Command { way, command } => needed_by(*way, command),
            Ask::Raw {
                room,
                shape,
                bytes,
                ..
            } => shape.needed(bytes.len() as u32, *room),
        }
    }

    /// Its request, with this ordinal on its lane.
    pub(crate) fn request(&self, alloc: Global, ordinal: u64) -> Result<Request, AllocError>
        requires { IsAsk self.now }
        ensures { IfOk result (IsMadeFor self.now ordinal) }
    {
        match self {
            Ask::Command { way, command } => request_by(alloc, *way, ordinal, command),
            Ask::Raw {
                queue,
                room,
                shape,
                bytes,
            } => {
                let bytes = bytes.as_slice().to_vec(alloc)?;
                Ok(raw_request(*queue, ordinal, *room, *shape, Seq::from_vec(bytes)))
            }
        }
    }

    /// The first thing that it names and that isn't allowed to a client with these holds. None where it is allowed.
    pub fn denied(&self, alloc: Global, holds: &Holds) -> Result<Option<What>, AllocError>
        ensures first { IfOk result (λ what. what ≡ asks.denied_for holds.now self.now) }
        // What is denied is something that may be.
        ensures deniable { IfOk result (λ what. IfSome what (Deniable holds.now)) }
    {
        match self {
            Ask::Command { way, command } => denied_by(alloc, holds, *way, command),
            Ask::Raw { queue, bytes, .. } => denied(alloc, holds, *queue, bytes.as_slice()),
        }
    }
}
