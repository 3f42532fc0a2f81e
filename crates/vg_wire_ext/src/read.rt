//! The commands read from their fields (VIRTIO 1.2, 5.7.6.8 to 5.7.6.10), each at the front of `body`, the bytes after the
//! header. None where they aren't all there.

ghost use Rattle.std.specs.Prelude.{◌≡◌, ◌≤◌, length, IfOk, IfSome, OnErr, IsSome, is_some, option_map};
ghost use Rattle.vg_wire.specs.TwoD.{whole};
ghost use Rattle.vg_wire_ext.specs.Commands as layout;
ghost use Rattle.vg_wire_ext.specs.Commands.{by_row, command_of, row_of, FitsEntries};

use crate::command::Command;
use crate::fields::i32_at;
use std::alloc::{AllocError, Global};
use vg_list::Seq;
use vg_numbers::{u32_at, u64_at};
use vg_wire::kinds::{
    CTX_ATTACH_RESOURCE, CTX_CREATE, CTX_DESTROY, CTX_DETACH_RESOURCE, GET_CAPSET, GET_CAPSET_INFO,
    GET_EDID, MOVE_CURSOR, RESOURCE_ASSIGN_UUID, RESOURCE_CREATE_BLOB, SET_SCANOUT_BLOB, SUBMIT_3D,
    UPDATE_CURSOR,
};
use vg_wire::{Header, is_2d, read_2d, read_entries, rect_at};

/// RESOURCE_CREATE_BLOB: 32 bytes and the 16 of each entry.
#[tactic(auto, unfolding(crate::specs::Commands::create_blob, crate::specs::Commands::create_blob_size))]
fn read_create_blob(alloc: Global, body: &[u8]) -> Result<Option<Command>, AllocError>
    ensures exact { IfOk result (λ command.
        command ≡ whole (layout.create_blob_size body.now) body.now (layout.create_blob body.now)) }
    ensures memory { OnErr result (layout.create_blob_size body.now ≤ length body.now) }
    ensures count { IfOk result (λ command. IfSome command FitsEntries) }
{
    if body.len() < 32 {
        return Ok(None);
    }
    let count = u32_at(body, 12) as usize;
    // Nothing is allocated for entries that aren't there.
    if body.len() < 32 + 16 * count {
        return Ok(None);
    }
    let entries = read_entries(alloc, body, 32, count)?;
    Ok(Some(Command::CreateBlob {
        resource: u32_at(body, 0),
        mem: u32_at(body, 4),
        flags: u32_at(body, 8),
        blob_id: u64_at(body, 16),
        size: u64_at(body, 24),
        entries,
    }))
}

/// SET_SCANOUT_BLOB: 72 bytes. Strides and offsets of planes 1 to 3 are not looked at.
#[tactic(auto, unfolding(crate::specs::Commands::set_scanout_blob))]
fn read_set_scanout_blob(body: &[u8]) -> Command
    requires { 72 ≤ length body.now }
    ensures exact { result ≡ layout.set_scanout_blob body.now }
    ensures count { FitsEntries result }
{
    Command::SetScanoutBlob {
        rect: rect_at(body, 0),
        scanout: u32_at(body, 16),
        resource: u32_at(body, 20),
        width: u32_at(body, 24),
        height: u32_at(body, 28),
        format: u32_at(body, 32),
        stride: u32_at(body, 40),
        offset: u32_at(body, 56),
    }
}

/// CTX_CREATE: 72 bytes.
#[tactic(auto, unfolding(crate::specs::Commands::ctx_create))]
fn read_ctx_create(body: &[u8]) -> Command
    requires { 72 ≤ length body.now }
    ensures exact { result ≡ layout.ctx_create body.now }
    ensures count { FitsEntries result }
{
    let mut name = [0; 64];
    name.copy_from_slice(&body[8..72]);
    Command::CtxCreate {
        nlen: u32_at(body, 0),
        context_init: u32_at(body, 4),
        name,
    }
}

/// SUBMIT_3D: eight bytes, and those of the stream.
#[tactic(auto, unfolding(crate::specs::Commands::submit, crate::specs::Commands::submit_size))]
fn read_submit(alloc: Global, body: &[u8]) -> Result<Option<Command>, AllocError>
    ensures exact { IfOk result (λ command.
        command ≡ whole (layout.submit_size body.now) body.now (layout.submit body.now)) }
    ensures memory { OnErr result (layout.submit_size body.now ≤ length body.now) }
    ensures count { IfOk result (λ command. IfSome command FitsEntries) }
{
    if body.len() < 8 {
        return Ok(None);
    }
    let size = u32_at(body, 0) as usize;
    // Nothing is allocated for bytes that aren't there.
    if body.len() < 8 + size {
        return Ok(None);
    }
    let stream = body[8..8 + size].to_vec(alloc)?;
    Ok(Some(Command::Submit {
        stream: Seq::from_vec(stream),
    }))
}

/// UPDATE_CURSOR: 32 bytes.
#[tactic(auto, unfolding(crate::specs::Commands::update_cursor))]
fn read_update_cursor(body: &[u8]) -> Command
    requires { 32 ≤ length body.now }
    ensures exact { result ≡ layout.update_cursor body.now }
    ensures count { FitsEntries result }
{
    Command::UpdateCursor {
        scanout: u32_at(body, 0),
        x: i32_at(body, 4),
        y: i32_at(body, 8),
        resource: u32_at(body, 16),
        hot_x: u32_at(body, 20),
        hot_y: u32_at(body, 24),
    }
}

/// MOVE_CURSOR: 32 bytes, of which those behind the position are not looked at.
#[tactic(auto, unfolding(crate::specs::Commands::move_cursor))]
fn read_move_cursor(body: &[u8]) -> Command
    requires { 32 ≤ length body.now }
    ensures exact { result ≡ layout.move_cursor body.now }
    ensures count { FitsEntries result }
{
    Command::MoveCursor {
        scanout: u32_at(body, 0),
        x: i32_at(body, 4),
        y: i32_at(body, 8),
    }
}

/// The command of a kind that no 2D command has. CTX_DESTROY has no fields, so it is always there.
#[tactic(auto, unfolding(crate::specs::Commands::row_of, crate::specs::Commands::ctx_destroy, crate::specs::Commands::capset_info, crate::specs::Commands::capset, crate::specs::Commands::edid, crate::specs::Commands::assign_uuid, crate::specs::Commands::ctx_attach, crate::specs::Commands::ctx_detach))]
fn read_by_row(alloc: Global, kind: u32, body: &[u8]) -> Result<Option<Command>, AllocError>
    ensures exact { IfOk result (λ command. command ≡ by_row (row_of kind) body.now) }
    // Memory is asked for only once all of the command is there.
    ensures memory { OnErr result (IsSome (by_row (row_of kind) body.now)) }
    ensures count { IfOk result (λ command. IfSome command FitsEntries) }
{
    match kind {
        GET_CAPSET_INFO if body.len() >= 8 => Ok(Some(Command::CapsetInfo {
            index: u32_at(body, 0),
        })),
        GET_CAPSET if body.len() >= 8 => Ok(Some(Command::Capset {
            id: u32_at(body, 0),
            version: u32_at(body, 4),
        })),
        GET_EDID if body.len() >= 8 => Ok(Some(Command::Edid {
            scanout: u32_at(body, 0),
        })),
        RESOURCE_ASSIGN_UUID if body.len() >= 8 => Ok(Some(Command::AssignUuid {
            resource: u32_at(body, 0),
        })),
        RESOURCE_CREATE_BLOB => read_create_blob(alloc, body),
        SET_SCANOUT_BLOB if body.len() >= 72 => Ok(Some(read_set_scanout_blob(body))),
        CTX_CREATE if body.len() >= 72 => Ok(Some(read_ctx_create(body))),
        CTX_DESTROY => Ok(Some(Command::CtxDestroy)),
        CTX_ATTACH_RESOURCE if body.len() >= 8 => Ok(Some(Command::CtxAttach {
            resource: u32_at(body, 0),
        })),
        CTX_DETACH_RESOURCE if body.len() >= 8 => Ok(Some(Command::CtxDetach {
            resource: u32_at(body, 0),
        })),
        SUBMIT_3D => read_submit(alloc, body),
        UPDATE_CURSOR if body.len() >= 32 => Ok(Some(read_update_cursor(body))),
        MOVE_CURSOR if body.len() >= 32 => Ok(Some(read_move_cursor(body))),
        _ => Ok(None),
    }
}

/// Whether commands have this kind that are no 2D commands.
#[tactic(auto, unfolding(crate::specs::Commands::row_of))]
fn has_row(kind: u32) -> bool
    ensures { result ≡ is_some (row_of kind) }
{
    match kind {
        GET_CAPSET_INFO
        | GET_CAPSET
        | GET_EDID
        | RESOURCE_ASSIGN_UUID
        | RESOURCE_CREATE_BLOB
        | SET_SCANOUT_BLOB => true,
        CTX_CREATE | CTX_DESTROY | CTX_ATTACH_RESOURCE | CTX_DETACH_RESOURCE | SUBMIT_3D => true,
        UPDATE_CURSOR | MOVE_CURSOR => true,
        _ => false,
    }
}

/// Whether a command has this kind.
pub(crate) fn is_known(kind: u32) -> bool
    ensures { result ≡ layout.is_known kind }
{
    is_2d(kind) || has_row(kind)
}

/// The command of this header's kind, whose fields are at the front of `body`, the bytes after the
/// header. None where no command has the kind or its fields aren't all there.
pub(crate) fn read_command(
    alloc: Global,
    header: &Header,
    body: &[u8],
) -> Result<Option<Command>, AllocError>
    ensures exact { IfOk result (λ command. command ≡ command_of header.now.kind body.now) }
    ensures memory { OnErr result (IsSome (command_of header.now.kind body.now)) }
    ensures count { IfOk result (λ command. IfSome command FitsEntries) }
{
    if !is_2d(header.kind) {
        return read_by_row(alloc, header.kind, body);
    }
    match read_2d(alloc, header, body)? {
        Some(command) => Ok(Some(Command::TwoD(command))),
        None => Ok(None),
    }
}
