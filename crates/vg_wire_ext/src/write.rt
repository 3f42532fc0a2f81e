//! The commands' fields written (VIRTIO 1.2, 5.7.6.8 to 5.7.6.10), with padding 0.

ghost use Rattle.std.specs.Prelude.{◌≡◌, ◌<◌, ◌^◌, ◌++◌, length, OnOk};
ghost use Rattle.vg_wire_ext.specs.declared.command.Command.TheVariants.{CreateBlob, SetScanoutBlob, CtxCreate, Submit, UpdateCursor, MoveCursor};
ghost use Rattle.vg_wire_ext.specs.Commands.{command_body, FitsEntries, IsCommand};

use crate::command::Command;
use crate::fields::{put_planes, put_position};
use std::alloc::AllocError;
use vg_formats::{MemEntry, Rect};
use vg_numbers::{put_u32, put_u64};
use vg_wire::{put_2d, put_entries, put_rect, put_two, size_2d};

/// Adds the fields of RESOURCE_CREATE_BLOB.
fn put_create_blob(
    out: &mut Vec<u8>,
    resource: u32,
    mem: u32,
    flags: u32,
    blob_id: u64,
    size: u64,
    entries: &[MemEntry],
) -> Result<(), AllocError>
    requires { length entries.now < 2 ^ 32 }
    ensures bytes { OnOk result (out.new.items
        ≡ out.old.items ++ command_body (CreateBlob resource mem flags blob_id size entries.now)) }
    ensures fits { OnOk result (IsCommand (CreateBlob resource mem flags blob_id size entries.now)) }
{
    put_u32(out, resource)?;
    put_u32(out, mem)?;
    put_u32(out, flags)?;
    put_u32(out, entries.len() as u32)?;
    put_u64(out, blob_id)?;
    put_u64(out, size)?;
    put_entries(out, entries)
}

/// Adds the fields of SET_SCANOUT_BLOB.
fn put_set_scanout_blob(
    out: &mut Vec<u8>,
    rect: Rect,
    scanout: u32,
    resource: u32,
    width: u32,
    height: u32,
    format: u32,
    stride: u32,
    offset: u32,
) -> Result<(), AllocError>
    ensures bytes { OnOk result (out.new.items
        ≡ out.old.items ++ command_body (SetScanoutBlob rect scanout resource width height format stride offset)) }
    ensures fits { IsCommand (SetScanoutBlob rect scanout resource width height format stride offset) }
{
    put_rect(out, rect)?;
    put_two(out, scanout, resource)?;
    put_two(out, width, height)?;
    put_two(out, format, 0)?;
    put_planes(out, stride)?;
    put_planes(out, offset)
}

/// Adds the fields of CTX_CREATE.
fn put_ctx_create(
    out: &mut Vec<u8>,
    nlen: u32,
    context_init: u32,
    name: [u8; 64],
) -> Result<(), AllocError>
    ensures bytes { OnOk result (
        out.new.items ≡ out.old.items ++ command_body (CtxCreate nlen context_init name)) }
    ensures fits { IsCommand (CtxCreate nlen context_init name) }
{
    put_two(out, nlen, context_init)?;
    out.extend_from_slice(&name)
}

/// Adds the fields of SUBMIT_3D: how many bytes the stream has, and the stream.
fn put_submit(out: &mut Vec<u8>, stream: &[u8]) -> Result<(), AllocError>
    requires { length stream.now < 2 ^ 32 }
    ensures bytes { OnOk result (out.new.items ≡ out.old.items ++ command_body (Submit stream.now)) }
{
    put_two(out, stream.len() as u32, 0)?;
    out.extend_from_slice(stream)
}

/// Adds the fields of UPDATE_CURSOR.
fn put_update_cursor(
    out: &mut Vec<u8>,
    scanout: u32,
    x: i32,
    y: i32,
    resource: u32,
    hot_x: u32,
    hot_y: u32,
) -> Result<(), AllocError>
    ensures bytes { OnOk result (
        out.new.items ≡ out.old.items ++ command_body (UpdateCursor scanout x y resource hot_x hot_y)) }
    ensures fits { IsCommand (UpdateCursor scanout x y resource hot_x hot_y) }
{
    put_position(out, scanout, x, y)?;
    put_two(out, resource, hot_x)?;
    put_two(out, hot_y, 0)
}

/// Adds the fields of MOVE_CURSOR: what isn't its position is 0.
fn put_move_cursor(out: &mut Vec<u8>, scanout: u32, x: i32, y: i32) -> Result<(), AllocError>
    ensures bytes { OnOk result (
        out.new.items ≡ out.old.items ++ command_body (MoveCursor scanout x y)) }
    ensures fits { IsCommand (MoveCursor scanout x y) }
{
    put_position(out, scanout, x, y)?;
    put_two(out, 0, 0)?;
    put_two(out, 0, 0)
}

/// Adds the bytes of a command's fields. It has fewer than 2^32 entries, or bytes of a stream.
pub(crate) fn put_command(out: &mut Vec<u8>, command: &Command) -> Result<(), AllocError>
    requires { FitsEntries command.now }
    ensures bytes { OnOk result (out.new.items ≡ out.old.items ++ command_body command.now) }
    ensures fits { OnOk result (IsCommand command.now) }
{
    match command {
        Command::TwoD(command) => put_2d(out, command),
        Command::CapsetInfo { index } => put_two(out, *index, 0),
        Command::Capset { id, version } => put_two(out, *id, *version),
        Command::Edid { scanout } => put_two(out, *scanout, 0),
        Command::AssignUuid { resource } => put_two(out, *resource, 0),
        Command::CreateBlob {
            resource,
            mem,
            flags,
            blob_id,
            size,
            entries,
        } => put_create_blob(
            out,
            *resource,
            *mem,
            *flags,
            *blob_id,
            *size,
            entries.as_slice(),
        ),
        Command::SetScanoutBlob {
            rect,
            scanout,
            resource,
            width,
            height,
            format,
            stride,
            offset,
        } => put_set_scanout_blob(
            out, *rect, *scanout, *resource, *width, *height, *format, *stride, *offset,
        ),
        Command::CtxCreate {
            nlen,
            context_init,
            name,
        } => put_ctx_create(out, *nlen, *context_init, *name),
        Command::CtxDestroy => Ok(()),
        Command::CtxAttach { resource } => put_two(out, *resource, 0),
        Command::CtxDetach { resource } => put_two(out, *resource, 0),
        Command::Submit { stream } => put_submit(out, stream.as_slice()),
        Command::UpdateCursor {
            scanout,
            x,
            y,
            resource,
            hot_x,
            hot_y,
        } => put_update_cursor(out, *scanout, *x, *y, *resource, *hot_x, *hot_y),
        Command::MoveCursor { scanout, x, y } => put_move_cursor(out, *scanout, *x, *y),
    }
}

/// How many bytes a command's fields take. It has fewer than 2^32 entries, or bytes of a stream.
pub(crate) fn size_of(command: &Command) -> usize
    requires { FitsEntries command.now }
    ensures size { IsCommand command.now → result ≡ length (command_body command.now) }
    ensures small { result < 2 ^ 37 }
{
    match command {
        Command::TwoD(command) => size_2d(command),
        Command::CapsetInfo { .. } => 8,
        Command::Capset { .. } => 8,
        Command::Edid { .. } => 8,
        Command::AssignUuid { .. } => 8,
        Command::CreateBlob { entries, .. } => 32 + 16 * entries.len(),
        Command::SetScanoutBlob { .. } => 72,
        Command::CtxCreate { .. } => 72,
        Command::CtxDestroy => 0,
        Command::CtxAttach { .. } => 8,
        Command::CtxDetach { .. } => 8,
        Command::Submit { stream } => 8 + stream.len(),
        Command::UpdateCursor { .. } => 32,
        Command::MoveCursor { .. } => 32,
    }
}
