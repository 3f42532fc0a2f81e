//! What is named, read from the bytes of a request. `body` is the bytes after the header.

ghost use Rattle.std.specs.Prelude.{◌≡◌, ℕ};
ghost use Rattle.vg_wire.specs.TwoD as two_d;
ghost use Rattle.vg_wire.specs.TwoD.{two_d_of, whole};
ghost use Rattle.vg_wire_ext.specs.Commands as layout;
ghost use Rattle.vg_wire_ext.specs.Commands.{by_row, command_of, row_of};
ghost use Rattle.vg_wire_ext.specs.Request.{request_of};
ghost use Rattle.vg_wire_ext.specs.Named.{named_in};
ghost use Rattle.vg_wire_ext.specs.NamedWithin.{found, found_2d};

use crate::names::Named;
use crate::request::is_queue_of;
use vg_numbers::u32_at;
use vg_wire::kinds::{
    CTX_DESTROY, RESOURCE_ATTACH_BACKING, RESOURCE_DETACH_BACKING, RESOURCE_FLUSH, RESOURCE_UNREF,
    TRANSFER_TO_HOST_2D, UPDATE_CURSOR,
};
use vg_wire::{Queue, is_2d, read_header};

/// By RESOURCE_ATTACH_BACKING: eight bytes, and the 16 of each entry.
#[tactic(auto, unfolding(vg_wire::specs::TwoD::attach, vg_wire::specs::TwoD::attach_size))]
fn by_attach(body: &[u8]) -> Named
    ensures { result ≡ found_2d (whole (two_d.attach_size body.now) body.now (two_d.attach body.now)) }
{
    if body.len() < 8 {
        return Named::Nothing;
    }
    let id = u32_at(body, 0);
    let count = u32_at(body, 4) as usize;
    if body.len() < 8 + 16 * count {
        return Named::Nothing;
    }
    Named::Resource { id }
}

/// By a 2D command, of this kind.
#[tactic(auto, unfolding(vg_wire::specs::TwoD::two_d_of, vg_wire::specs::TwoD::unref, vg_wire::specs::TwoD::flush, vg_wire::specs::TwoD::transfer, vg_wire::specs::TwoD::detach))]
fn by_2d(kind: u32, body: &[u8]) -> Named
    ensures { result ≡ found_2d (two_d_of kind body.now) }
{
    match kind {
        RESOURCE_UNREF if body.len() >= 8 => Named::Resource {
            id: u32_at(body, 0),
        },
        RESOURCE_FLUSH if body.len() >= 24 => Named::Flush {
            id: u32_at(body, 16),
        },
        TRANSFER_TO_HOST_2D if body.len() >= 32 => Named::Transfer {
            id: u32_at(body, 24),
        },
        RESOURCE_ATTACH_BACKING => by_attach(body),
        RESOURCE_DETACH_BACKING if body.len() >= 8 => Named::Resource {
            id: u32_at(body, 0),
        },
        _ => Named::Nothing,
    }
}

/// By another command, of this kind, whose header has this context.
#[tactic(auto, unfolding(crate::specs::Commands::row_of, crate::specs::Commands::ctx_destroy, crate::specs::Commands::update_cursor))]
fn by_other(kind: u32, context: u32, body: &[u8]) -> Named
    ensures { result ≡ found context (by_row (row_of kind) body.now) }
{
    match kind {
        CTX_DESTROY => Named::Context { id: context },
        UPDATE_CURSOR if body.len() >= 32 => Named::Resource {
            id: u32_at(body, 16),
        },
        _ => Named::Nothing,
    }
}

/// By any command.
fn by_command(kind: u32, context: u32, body: &[u8]) -> Named
    ensures { result ≡ found context (command_of kind body.now) }
{
    if is_2d(kind) {
        by_2d(kind, body)
    } else {
        by_other(kind, context, body)
    }
}

/// What the request at the front of these bytes, which came on `queue`, names: nothing where they
/// are no request (VIRTIO 1.2, 5.7.6). It takes no memory.
pub fn named(queue: Queue, request: &[u8]) -> Named
    ensures { result ≡ named_in (request_of queue request.now) }
{
    let Some(header) = read_header(request) else {
        return Named::Nothing;
    };
    if !is_queue_of(header.kind, queue) {
        return Named::Nothing;
    }
    by_command(header.kind, header.ctx_id, &request[24..])
}
