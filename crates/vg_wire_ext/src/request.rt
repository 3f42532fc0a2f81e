//! A whole request: a header and the command of its kind (VIRTIO 1.2, 5.7.6.7).

ghost use Rattle.std.specs.Prelude.{◌≡◌, Ok, IfOk, OnErr, IsOk};
ghost use Rattle.vg_wire_ext.specs.Commands.{command_kind, FitsEntries};
ghost use Rattle.vg_wire_ext.specs.Request as Request;
ghost use Rattle.vg_wire_ext.specs.Request.{request_of, request_bytes, queue_of};

use crate::command::Command;
use crate::read::{is_known, read_command};
use crate::write::{put_command, size_of};
use std::alloc::{AllocError, Global};
use vg_wire::kinds::UPDATE_CURSOR;
use vg_wire::{Header, Malformed, Queue, put_header, read_header};

/// Whether commands of this kind go on this queue.
pub(crate) fn is_queue_of(kind: u32, queue: Queue) -> bool
    ensures { result ≡ Request.is_queue_of kind queue }
{
    match queue {
        Queue::Control => kind < UPDATE_CURSOR,
        Queue::Cursor => kind >= UPDATE_CURSOR,
    }
}

/// The request at the front of these bytes, which came on `queue`. Bytes after the command's fields
/// are ignored, and so is padding.
pub fn read_request(
    alloc: Global,
    bytes: &[u8],
    queue: Queue,
) -> Result<Result<(Header, Command), Malformed>, AllocError>
    ensures exact { IfOk result (λ read. read ≡ request_of queue bytes.now) }
    // Memory is asked for only by bytes that are a request.
    ensures memory { OnErr result (IsOk (request_of queue bytes.now)) }
    // As many entries as nr_entries can count, or bytes of a stream as size can.
    ensures entries { IfOk result (λ read. IfOk read (λ request. FitsEntries request.1)) }
{
    let Some(header) = read_header(bytes) else {
        return Ok(Err(Malformed::ShortHeader));
    };
    if !is_known(header.kind) {
        return Ok(Err(Malformed::UnknownKind { kind: header.kind }));
    }
    if !is_queue_of(header.kind, queue) {
        return Ok(Err(Malformed::WrongQueue));
    }
    match read_command(alloc, &header, &bytes[24..])? {
        Some(command) => Ok(Ok((header, command))),
        None => Ok(Err(Malformed::ShortBody)),
    }
}

/// The bytes of a request, with padding 0. The header has the kind of the command, which has fewer than
/// 2^32 entries, or bytes of a stream.
pub fn write_request(
    alloc: Global,
    header: &Header,
    command: &Command,
) -> Result<Vec<u8>, AllocError>
    requires entries { FitsEntries command.now }
    requires kind { header.now.kind ≡ command_kind command.now }
    ensures bytes { IfOk result (λ out. out.items ≡ request_bytes header.now command.now) }
    // What is written is read as itself.
    ensures reads { IfOk result (λ out. request_of (queue_of command.now) out.items ≡ Ok (header.now, command.now)) }
{
    let mut out = Vec::with_capacity(alloc, 24 + size_of(command))?;
    put_header(&mut out, *header)?;
    put_command(&mut out, command)?;
    Ok(out)
}
