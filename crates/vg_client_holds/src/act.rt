//! What a client does on the shared guest state without a command.

use vg_list::Seq;
use vg_share::{Geometry, PageList, ShareRefusal};

/// Something that a client named and that isn't allowed to it.
#[derive(Clone, Copy)]
pub enum What {
    /// A name that isn't current.
    Name,
    /// The resource of this number.
    Resource { n: u32 },
    /// The scanout of this number.
    Scanout { n: u32 },
    /// The context of this number.
    Context { n: u32 },
    /// The guest page of this number.
    Page { n: u32 },
}

/// An act of a client. Keys are those of buffers, offsets and lengths are in bytes.
#[derive(Drop)]
pub enum Act {
    /// The client begins.
    Enter,
    /// Takes the lowest free guest pages for a new buffer of `bytes` bytes, zeroed, which the client holds once.
    Reserve {
        width: u32,
        height: u32,
        format: u32,
        bytes: u32,
    },
    /// Writes `bytes`, so many times one after another, into a buffer.
    Store {
        key: u32,
        offset: u32,
        bytes: Seq<u8>,
        times: u32,
    },
    /// Reads bytes of a buffer.
    Load {
        key: u32,
        offset: u32,
        length: u32,
    },
    /// Gives a token for a buffer that the client holds.
    Export {
        key: u32,
    },
    /// Takes one more hold, of the buffer for which the token was given.
    Import {
        token: u32,
    },
    /// Gives up one hold of a buffer.
    Release {
        key: u32,
    },
    /// Gives back the pages of a buffer that the client takes down.
    Free {
        key: u32,
    },
    /// Leases a scanout.
    Take {
        scanout: u32,
    },
    /// Ends a lease.
    Drop {
        scanout: u32,
    },
    /// The client has waited for a fence: the command of this lane, 0 to 65, with this ordinal, from 1.
    Await {
        lane: u32,
        ordinal: u64,
    },
    /// The client asked for something that isn't allowed to it.
    Denied {
        what: What,
    },
    /// The host plugs a display of this size in pixels, or resizes it.
    Mode {
        scanout: u32,
        width: u32,
        height: u32,
    },
    /// The host unplugs a display.
    Unplug {
        scanout: u32,
    },
    /// The client has waited for the host's call of this number, which plugged or unplugged a display.
    Sync {
        call: u64,
    },
    /// Asks for the event bit of the configuration space (VIRTIO 1.2, 5.7.4, VIRTIO_GPU_EVENT_DISPLAY).
    Events,
    /// Clears it.
    Ack,
    /// The client has left.
    Leave,
}

/// What an act is answered.
#[derive(Debug, Drop)]
pub enum ActReply {
    Ok,
    /// The new buffer's key, and its guest pages, rising.
    Reserved {
        key: u32,
        pages: PageList,
    },
    /// What was loaded.
    Bytes {
        bytes: Seq<u8>,
    },
    /// The token.
    Exported {
        token: u32,
    },
    /// The imported buffer's key, what it is for, and its guest pages, rising.
    Imported {
        key: u32,
        geometry: Geometry,
        pages: PageList,
    },
    /// Others hold the buffer still.
    Kept,
    /// Whether the event bit is set.
    Events {
        set: bool,
    },
    /// No one holds the buffer any more, and the client takes it down.
    Last,
    Refused {
        refusal: ShareRefusal,
    },
}
