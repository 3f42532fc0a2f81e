//! The request of a command, by the way that it goes.

ghost use Rattle.std.specs.Prelude.{◌≡◌, ℕ, ◌+◌, ◌<◌, Ok, IfOk, IfSome};
ghost use Rattle.vg_chain.specs.Made.{IsNeeded};
ghost use Rattle.vg_wire.specs.declared.request.Queue.TheVariants as queues;
ghost use Rattle.vg_wire_ext.specs.Commands.{command_kind};
ghost use Rattle.vg_wire_ext.specs.Request.{request_of};
ghost use Rattle.vg_client_holds.specs.Holds.{Deniable};
ghost use Rattle.vg_machine.specs.Lane.{lane_of};
ghost use Rattle.vg_driver.specs.Requests as requests;
ghost use Rattle.vg_driver.specs.Requests.{IsWay, MayGo};

use std::alloc::{AllocError, Global};
use vg_chain::Shape;
use vg_list::Seq;
use vg_machine::{Holds, Request, What, denied_command, lane_of};
use vg_wire::{Command2d, Header, Queue};
use vg_wire_ext::{Command, write_request};

/// The way that a command goes to the device.
#[derive(Clone, Copy, Debug, PartialEq, Eq)]
pub enum Way {
    /// The control queue, for this context, or for none where it is 0.
    Control { context: u32 },
    /// The control queue, on a timeline of a context, ring index 0 to 63.
    Timeline { context: u32, ring: u8 },
    /// The cursor queue.
    Cursor,
}

/// The lane of a command that goes this way.
pub(crate) fn lane_by(way: Way) -> u32
    requires { IsWay way }
    ensures lane { result ≡ requests.lane_by way }
    ensures small { result < 66 }
{
    match way {
        Way::Control { .. } => 0,
        Way::Timeline { ring, .. } => 1 + u32::from(ring),
        Way::Cursor => 65,
    }
}

/// The queue of a command that goes this way.
pub(crate) fn queue_by(way: Way) -> Queue
    ensures { result ≡ requests.queue_by way }
{
    match way {
        Way::Control { .. } | Way::Timeline { .. } => Queue::Control,
        Way::Cursor => Queue::Cursor,
    }
}

/// The header of a command that goes this way.
fn header_by(way: Way, kind: u32, ordinal: u64) -> Header
    ensures { result ≡ requests.header_by way kind ordinal }
{
    match way {
        Way::Control { context } => Header {
            kind,
            flags: 1,
            fence_id: ordinal,
            ctx_id: context,
            ring_idx: 0,
        },
        Way::Timeline { context, ring } => Header {
            kind,
            flags: 3,
            fence_id: ordinal,
            ctx_id: context,
            ring_idx: ring,
        },
        Way::Cursor => Header {
            kind,
            flags: 0,
            fence_id: 0,
            ctx_id: 0,
            ring_idx: 0,
        },
    }
}

/// The request of a command that goes this way, with this ordinal on its lane.
pub(crate) fn request_by(
    alloc: Global,
    way: Way,
    ordinal: u64,
    command: &Command,
) -> Result<Request, AllocError>
    requires { MayGo way command.now }
    ensures request { IfOk result (λ request. request ≡ requests.request_by way command.now ordinal) }
    ensures lane { IfOk result (λ request. lane_of (requests.queue_by way) request.bytes ≡ requests.lane_by way) }
    ensures reads { IfOk result (λ request. request_of (requests.queue_by way) request.bytes
        ≡ Ok (requests.header_by way (command_kind command.now) ordinal, command.now)) }
{
    let header = header_by(way, command.kind(), ordinal);
    let bytes = write_request(alloc, &header, command)?;
    let queue = queue_by(way);
    Ok(Request {
        queue,
        lane: lane_by(way),
        ordinal,
        room: room_on(queue, command),
        shape: shape_of(command),
        bytes: Seq::from_vec(bytes),
    })
}

/// The first thing that a command which goes this way names and that isn't allowed to a client with these holds. None where it
/// is allowed.
pub(crate) fn denied_by(
    alloc: Global,
    holds: &Holds,
    way: Way,
    command: &Command,
) -> Result<Option<What>, AllocError>
    ensures first { IfOk result (λ what. what ≡ requests.denied_by holds.now way command.now) }
    // What is denied is something that may be.
    ensures deniable { IfOk result (λ what. IfSome what (Deniable holds.now)) }
{
    denied_command(alloc, holds, &header_by(way, command.kind(), 0), command)
}

/// The request of these bytes, with this ordinal on their lane.
pub(crate) fn raw_request(
    queue: Queue,
    ordinal: u64,
    room: u32,
    shape: Shape,
    bytes: Seq<u8>,
) -> Request
    ensures { result ≡ requests.raw_request queue room shape bytes ordinal }
{
    Request {
        queue,
        lane: lane_of(queue, bytes.as_slice()),
        ordinal,
        room,
        shape,
        bytes,
    }
}

/// How many descriptors a command needs that goes this way.
pub(crate) fn needed_by(way: Way, command: &Command) -> u16
    ensures { (k : ℕ) → IsNeeded (requests.shape_of command.now) (24 + k) (requests.room_on (requests.queue_by way) command.now) result }
{
    shape_of(command).needed(24, room_on(queue_by(way), command))
}

/// How many bytes there are for the response of a command on a queue.
fn room_on(queue: Queue, command: &Command) -> u32
    ensures { result ≡ requests.room_on queue command.now }
{
    match queue {
        Queue::Cursor => 0,
        Queue::Control => room_of(command),
    }
}

/// How many bytes there are for the response of a command on the control queue.
fn room_of(command: &Command) -> u32
    ensures { result ≡ requests.room_on queues.Control command.now }
{
    match command {
        Command::TwoD(Command2d::DisplayInfo) => 408,
        Command::Edid { .. } => 1056,
        Command::AssignUuid { .. } => 40,
        _ => 24,
    }
}

/// How a command's request is laid out: more than eight entries stand in a table.
fn shape_of(command: &Command) -> Shape
    ensures { result ≡ requests.shape_of command.now }
{
    match command {
        Command::TwoD(Command2d::Attach { entries, .. }) if entries.len() > 8 => Shape::Indirect,
        Command::CreateBlob { entries, .. } if entries.len() > 8 => Shape::Indirect,
        _ => Shape::Plain,
    }
}
