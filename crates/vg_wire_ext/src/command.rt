//! The commands (VIRTIO 1.2, 5.7.6.7 to 5.7.6.10).

ghost use Rattle.std.specs.Prelude.{◌≡◌};
ghost use Rattle.vg_wire_ext.specs.Commands.{command_kind};

use vg_formats::Rect;
use vg_list::Seq;
use vg_wire::kinds::{
    CTX_ATTACH_RESOURCE, CTX_CREATE, CTX_DESTROY, CTX_DETACH_RESOURCE, GET_CAPSET, GET_CAPSET_INFO,
    GET_EDID, MOVE_CURSOR, RESOURCE_ASSIGN_UUID, RESOURCE_CREATE_BLOB, SET_SCANOUT_BLOB, SUBMIT_3D,
    UPDATE_CURSOR,
};
use vg_wire::{Command2d, Entries};

/// A command, without its header.
#[derive(Debug, Drop, Clone, PartialEq)]
pub enum Command {
    /// The 2D commands, kinds 0x0100 to 0x0107.
    TwoD(Command2d),
    /// GET_CAPSET_INFO, kind 0x0108.
    CapsetInfo {
        index: u32,
    },
    /// GET_CAPSET, kind 0x0109.
    Capset {
        id: u32,
        version: u32,
    },
    /// GET_EDID, kind 0x010a.
    Edid {
        scanout: u32,
    },
    /// RESOURCE_ASSIGN_UUID, kind 0x010b.
    AssignUuid {
        resource: u32,
    },
    /// RESOURCE_CREATE_BLOB, kind 0x010c: the size is in bytes, the entries are the blob's ranges of
    /// guest memory.
    CreateBlob {
        resource: u32,
        mem: u32,
        flags: u32,
        blob_id: u64,
        size: u64,
        entries: Entries,
    },
    /// SET_SCANOUT_BLOB, kind 0x010d: the part of the blob that the scanout shows, as pixels of a
    /// picture whose size is in pixels; the stride and the offset, of plane 0, are in bytes.
    SetScanoutBlob {
        rect: Rect,
        scanout: u32,
        resource: u32,
        width: u32,
        height: u32,
        format: u32,
        stride: u32,
        offset: u32,
    },
    /// CTX_CREATE, kind 0x0200: of the name's bytes the first `nlen` count.
    CtxCreate {
        nlen: u32,
        context_init: u32,
        name: [u8; 64],
    },
    /// CTX_DESTROY, kind 0x0201, of the header's context.
    CtxDestroy,
    /// CTX_ATTACH_RESOURCE, kind 0x0202.
    CtxAttach {
        resource: u32,
    },
    /// CTX_DETACH_RESOURCE, kind 0x0203.
    CtxDetach {
        resource: u32,
    },
    /// SUBMIT_3D, kind 0x0207: the bytes of the stream, which are as many as its size says.
    Submit {
        stream: Seq<u8>,
    },
    /// UPDATE_CURSOR, kind 0x0300: the position of the hot spot on the screen, and the hot spot in the
    /// cursor, in pixels.
    UpdateCursor {
        scanout: u32,
        x: i32,
        y: i32,
        resource: u32,
        hot_x: u32,
        hot_y: u32,
    },
    /// MOVE_CURSOR, kind 0x0301.
    MoveCursor {
        scanout: u32,
        x: i32,
        y: i32,
    },
}

impl Command {
    /// The kind of the command's header.
    pub fn kind(&self) -> u32
        ensures { result ≡ command_kind self.now }
    {
        match self {
            Command::TwoD(command) => command.kind(),
            Command::CapsetInfo { .. } => GET_CAPSET_INFO,
            Command::Capset { .. } => GET_CAPSET,
            Command::Edid { .. } => GET_EDID,
            Command::AssignUuid { .. } => RESOURCE_ASSIGN_UUID,
            Command::CreateBlob { .. } => RESOURCE_CREATE_BLOB,
            Command::SetScanoutBlob { .. } => SET_SCANOUT_BLOB,
            Command::CtxCreate { .. } => CTX_CREATE,
            Command::CtxDestroy => CTX_DESTROY,
            Command::CtxAttach { .. } => CTX_ATTACH_RESOURCE,
            Command::CtxDetach { .. } => CTX_DETACH_RESOURCE,
            Command::Submit { .. } => SUBMIT_3D,
            Command::UpdateCursor { .. } => UPDATE_CURSOR,
            Command::MoveCursor { .. } => MOVE_CURSOR,
        }
    }
}
