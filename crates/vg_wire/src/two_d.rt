//! The 2D commands (VIRTIO 1.2, 5.7.6.8).

ghost use Rattle.std.specs.Prelude.{◌≡◌, ◌+◌, ◌*◌, ◌^◌, ◌<◌, ◌≤◌, ◌++◌, length, IfOk, OnOk, OnErr, IsSome, IfSome};
ghost use Rattle.vg_list.specs.Front.{HasFront};
ghost use Rattle.vg_numbers.specs.Numbers.{le};
ghost use Rattle.vg_wire.specs.declared.two_d.Command2d.TheVariants.{Create2d, SetScanout, Flush, Transfer, Attach};
ghost use Rattle.vg_wire.specs.TwoD.{two_d_of, body_of_2d, whole, FitsCount, IsCommand2d};
ghost use Rattle.vg_wire.specs.TwoD as layout;

use crate::entries::{Entries, put_entries, read_entries};
use crate::header::Header;
use crate::kinds::{
    GET_DISPLAY_INFO, RESOURCE_ATTACH_BACKING, RESOURCE_CREATE_2D, RESOURCE_DETACH_BACKING,
    RESOURCE_FLUSH, RESOURCE_UNREF, SET_SCANOUT, TRANSFER_TO_HOST_2D,
};
use crate::rect::{put_rect, rect_at};
use std::alloc::{AllocError, Global};
use vg_formats::{MemEntry, Rect};
use vg_numbers::{put_u32, put_u64, u32_at, u64_at};

/// A 2D command, without its header.
#[derive(Debug, Drop, Clone, PartialEq)]
pub enum Command2d {
    /// GET_DISPLAY_INFO, kind 0x0100.
    DisplayInfo,
    /// RESOURCE_CREATE_2D, kind 0x0101: the format is a code of VIRTIO 1.2, 5.7.6.8, enum
    /// virtio_gpu_formats, the size is in pixels.
    Create2d {
        resource: u32,
        format: u32,
        width: u32,
        height: u32,
    },
    /// RESOURCE_UNREF, kind 0x0102.
    Unref {
        resource: u32,
    },
    /// SET_SCANOUT, kind 0x0103: the part of the resource that the scanout shows.
    SetScanout {
        rect: Rect,
        scanout: u32,
        resource: u32,
    },
    /// RESOURCE_FLUSH, kind 0x0104: the part of the resource that is shown anew.
    Flush {
        rect: Rect,
        resource: u32,
    },
    /// TRANSFER_TO_HOST_2D, kind 0x0105: the part of the resource that is copied, and the place of
    /// its first byte in the backing.
    Transfer {
        rect: Rect,
        offset: u64,
        resource: u32,
    },
    /// RESOURCE_ATTACH_BACKING, kind 0x0106: the backing's ranges of guest memory.
    Attach {
        resource: u32,
        entries: Entries,
    },
    /// RESOURCE_DETACH_BACKING, kind 0x0107.
    Detach {
        resource: u32,
    },
}

/// RESOURCE_CREATE_2D, whose bytes are there.
#[tactic(auto, unfolding(crate::specs::TwoD::create_2d))]
fn read_create_2d(body: &[u8]) -> Command2d
    requires { 16 ≤ length body.now }
    ensures exact { result ≡ layout.create_2d body.now }
    ensures count { FitsCount result }
{
    Command2d::Create2d {
        resource: u32_at(body, 0),
        format: u32_at(body, 4),
        width: u32_at(body, 8),
        height: u32_at(body, 12),
    }
}

/// SET_SCANOUT, whose bytes are there.
#[tactic(auto, unfolding(crate::specs::TwoD::set_scanout))]
fn read_set_scanout(body: &[u8]) -> Command2d
    requires { 24 ≤ length body.now }
    ensures exact { result ≡ layout.set_scanout body.now }
    ensures count { FitsCount result }
{
    Command2d::SetScanout {
        rect: rect_at(body, 0),
        scanout: u32_at(body, 16),
        resource: u32_at(body, 20),
    }
}

/// RESOURCE_FLUSH, whose bytes are there.
#[tactic(auto, unfolding(crate::specs::TwoD::flush))]
fn read_flush(body: &[u8]) -> Command2d
    requires { 24 ≤ length body.now }
    ensures exact { result ≡ layout.flush body.now }
    ensures count { FitsCount result }
{
    Command2d::Flush {
        rect: rect_at(body, 0),
        resource: u32_at(body, 16),
    }
}

/// TRANSFER_TO_HOST_2D, whose bytes are there.
#[tactic(auto, unfolding(crate::specs::TwoD::transfer))]
fn read_transfer(body: &[u8]) -> Command2d
    requires { 32 ≤ length body.now }
    ensures exact { result ≡ layout.transfer body.now }
    ensures count { FitsCount result }
{
    Command2d::Transfer {
        rect: rect_at(body, 0),
        offset: u64_at(body, 16),
        resource: u32_at(body, 24),
    }
}

/// RESOURCE_ATTACH_BACKING, if its eight bytes and the 16 of each entry are there.
#[tactic(auto, unfolding(crate::specs::TwoD::attach, crate::specs::TwoD::attach_size))]
fn read_attach(alloc: Global, body: &[u8]) -> Result<Option<Command2d>, AllocError>
    ensures exact { IfOk result (λ command.
        command ≡ whole (layout.attach_size body.now) body.now (layout.attach body.now)) }
    ensures memory { OnErr result (layout.attach_size body.now ≤ length body.now) }
    ensures count { IfOk result (λ command. IfSome command FitsCount) }
{
    if body.len() < 8 {
        return Ok(None);
    }
    let resource = u32_at(body, 0);
    let count = u32_at(body, 4) as usize;
    // Nothing is allocated for entries that aren't there.
    if body.len() < 8 + 16 * count {
        return Ok(None);
    }
    let entries = read_entries(alloc, body, 8, count)?;
    Ok(Some(Command2d::Attach { resource, entries }))
}

impl Command2d {
    /// The kind of the command's header.
    pub fn kind(&self) -> u32
        ensures { result ≡ layout.kind_of_2d self.now }
    {
        match self {
            Command2d::DisplayInfo => GET_DISPLAY_INFO,
            Command2d::Create2d { .. } => RESOURCE_CREATE_2D,
            Command2d::Unref { .. } => RESOURCE_UNREF,
            Command2d::SetScanout { .. } => SET_SCANOUT,
            Command2d::Flush { .. } => RESOURCE_FLUSH,
            Command2d::Transfer { .. } => TRANSFER_TO_HOST_2D,
            Command2d::Attach { .. } => RESOURCE_ATTACH_BACKING,
            Command2d::Detach { .. } => RESOURCE_DETACH_BACKING,
        }
    }
}

/// Whether this kind is a 2D command's.
pub fn is_2d(kind: u32) -> bool
    ensures { result ≡ layout.is_2d kind }
{
    (GET_DISPLAY_INFO..=RESOURCE_DETACH_BACKING).contains(&kind)
}

/// The 2D command of this header's kind, whose fields are at the front of `body`, the bytes after
/// the header. None where the kind is no 2D command's or its fields aren't all there.
#[tactic(auto, unfolding(crate::specs::TwoD::two_d_of, crate::specs::TwoD::unref, crate::specs::TwoD::detach))]
pub fn read_2d(alloc: Global, header: &Header, body: &[u8]) -> Result<Option<Command2d>, AllocError>
    ensures exact { IfOk result (λ command. command ≡ two_d_of header.now.kind body.now) }
    // Memory is asked for only once all of the command is there.
    ensures memory { OnErr result (IsSome (two_d_of header.now.kind body.now)) }
    ensures count { IfOk result (λ command. IfSome command FitsCount) }
{
    match header.kind {
        GET_DISPLAY_INFO => Ok(Some(Command2d::DisplayInfo)),
        RESOURCE_CREATE_2D if body.len() >= 16 => Ok(Some(read_create_2d(body))),
        RESOURCE_UNREF if body.len() >= 8 => Ok(Some(Command2d::Unref {
            resource: u32_at(body, 0),
        })),
        SET_SCANOUT if body.len() >= 24 => Ok(Some(read_set_scanout(body))),
        RESOURCE_FLUSH if body.len() >= 24 => Ok(Some(read_flush(body))),
        TRANSFER_TO_HOST_2D if body.len() >= 32 => Ok(Some(read_transfer(body))),
        RESOURCE_ATTACH_BACKING => read_attach(alloc, body),
        RESOURCE_DETACH_BACKING if body.len() >= 8 => Ok(Some(Command2d::Detach {
            resource: u32_at(body, 0),
        })),
        _ => Ok(None),
    }
}

/// How many bytes a command's fields take. It has fewer than 2^32 entries.
pub fn size_2d(command: &Command2d) -> usize
    requires { FitsCount command.now }
    ensures size { result ≡ length (body_of_2d command.now) }
    ensures small { result < 2 ^ 37 }
{
    match command {
        Command2d::DisplayInfo => 0,
        Command2d::Create2d { .. } => 16,
        Command2d::Unref { .. } => 8,
        Command2d::SetScanout { .. } => 24,
        Command2d::Flush { .. } => 24,
        Command2d::Transfer { .. } => 32,
        Command2d::Attach { entries, .. } => 8 + 16 * entries.len(),
        Command2d::Detach { .. } => 8,
    }
}

/// Adds two numbers of four bytes. For want of memory a front of them is added.
#[tactic(auto, using(vg_list::proofs::FrontLemmas::fronts))]
pub fn put_two(out: &mut Vec<u8>, first: u32, second: u32) -> Result<(), AllocError>
    ensures bytes { OnOk result (out.new.items ≡ out.old.items ++ (le 4 first ++ le 4 second)) }
    ensures err { OnErr result (HasFront out.old.items out.new.items (le 4 first ++ le 4 second)) }
    ensures first { first < 2 ^ 32 }
    ensures second { second < 2 ^ 32 }
{
    put_u32(out, first)?;
    put_u32(out, second)
}

/// Adds the fields of RESOURCE_CREATE_2D.
#[tactic(auto, using(vg_list::proofs::FrontLemmas::fronts))]
fn put_create_2d(
    out: &mut Vec<u8>,
    resource: u32,
    format: u32,
    width: u32,
    height: u32,
) -> Result<(), AllocError>
    ensures bytes { OnOk result (
        out.new.items ≡ out.old.items ++ body_of_2d (Create2d resource format width height)) }
    ensures err { OnErr result (
        HasFront out.old.items out.new.items (body_of_2d (Create2d resource format width height))) }
    ensures fits { IsCommand2d (Create2d resource format width height) }
{
    put_two(out, resource, format)?;
    put_two(out, width, height)
}

/// Adds the fields of SET_SCANOUT.
#[tactic(auto, using(vg_list::proofs::FrontLemmas::fronts))]
fn put_set_scanout(
    out: &mut Vec<u8>,
    rect: Rect,
    scanout: u32,
    resource: u32,
) -> Result<(), AllocError>
    ensures bytes { OnOk result (
        out.new.items ≡ out.old.items ++ body_of_2d (SetScanout rect scanout resource)) }
    ensures err { OnErr result (
        HasFront out.old.items out.new.items (body_of_2d (SetScanout rect scanout resource))) }
    ensures fits { IsCommand2d (SetScanout rect scanout resource) }
{
    put_rect(out, rect)?;
    put_two(out, scanout, resource)
}

/// Adds the fields of RESOURCE_FLUSH.
#[tactic(auto, using(vg_list::proofs::FrontLemmas::fronts))]
fn put_flush(out: &mut Vec<u8>, rect: Rect, resource: u32) -> Result<(), AllocError>
    ensures bytes { OnOk result (
        out.new.items ≡ out.old.items ++ body_of_2d (Flush rect resource)) }
    ensures err { OnErr result (
        HasFront out.old.items out.new.items (body_of_2d (Flush rect resource))) }
    ensures fits { IsCommand2d (Flush rect resource) }
{
    put_rect(out, rect)?;
    put_two(out, resource, 0)
}

/// Adds the fields of TRANSFER_TO_HOST_2D.
#[tactic(auto, using(vg_list::proofs::FrontLemmas::fronts))]
fn put_transfer(out: &mut Vec<u8>, rect: Rect, offset: u64, resource: u32) -> Result<(), AllocError>
    ensures bytes { OnOk result (
        out.new.items ≡ out.old.items ++ body_of_2d (Transfer rect offset resource)) }
    ensures err { OnErr result (
        HasFront out.old.items out.new.items (body_of_2d (Transfer rect offset resource))) }
    ensures fits { IsCommand2d (Transfer rect offset resource) }
{
    put_rect(out, rect)?;
    put_u64(out, offset)?;
    put_two(out, resource, 0)
}

/// Adds the fields of RESOURCE_ATTACH_BACKING.
#[tactic(auto, using(vg_list::proofs::FrontLemmas::fronts))]
fn put_attach(out: &mut Vec<u8>, resource: u32, entries: &[MemEntry]) -> Result<(), AllocError>
    requires { length entries.now < 2 ^ 32 }
    ensures bytes { OnOk result (
        out.new.items ≡ out.old.items ++ body_of_2d (Attach resource entries.now)) }
    ensures err { OnErr result (
        HasFront out.old.items out.new.items (body_of_2d (Attach resource entries.now))) }
    ensures fits { OnOk result (IsCommand2d (Attach resource entries.now)) }
{
    put_two(out, resource, entries.len() as u32)?;
    put_entries(out, entries)
}

/// Adds the bytes of a command's fields, with padding 0. It has fewer than 2^32 entries. For want of memory a front of them is
/// added.
pub fn put_2d(out: &mut Vec<u8>, command: &Command2d) -> Result<(), AllocError>
    requires { FitsCount command.now }
    ensures bytes { OnOk result (out.new.items ≡ out.old.items ++ body_of_2d command.now) }
    ensures err { OnErr result (HasFront out.old.items out.new.items (body_of_2d command.now)) }
    ensures fits { OnOk result (IsCommand2d command.now) }
{
    match command {
        Command2d::DisplayInfo => Ok(()),
        Command2d::Create2d {
            resource,
            format,
            width,
            height,
        } => put_create_2d(out, *resource, *format, *width, *height),
        Command2d::Unref { resource } => put_two(out, *resource, 0),
        Command2d::SetScanout {
            rect,
            scanout,
            resource,
        } => put_set_scanout(out, *rect, *scanout, *resource),
        Command2d::Flush { rect, resource } => put_flush(out, *rect, *resource),
        Command2d::Transfer {
            rect,
            offset,
            resource,
        } => put_transfer(out, *rect, *offset, *resource),
        Command2d::Attach { resource, entries } => put_attach(out, *resource, entries.as_slice()),
        Command2d::Detach { resource } => put_two(out, *resource, 0),
    }
}
