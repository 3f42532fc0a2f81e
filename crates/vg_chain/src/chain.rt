//! What a chain of descriptors refers to, and what can be wrong with it.

use crate::descriptor::Segment;
use crate::form::Form;
use vg_list::Seq;

/// Where a request, the room for its response and the indirect tables of its chain stand, and the form of these tables.
#[derive(Clone, Copy, Debug)]
pub struct Parts<'a> {
    /// The form of the virtqueue, by which its tables are read.
    pub form: Form,
    /// The address of the request's first byte. The room begins `ROOM_OFFSET` bytes above it, the
    /// tables `TABLES_OFFSET` bytes.
    pub base: u64,
    /// The number of the request's bytes.
    pub request: u32,
    /// The number of bytes that the room has.
    pub room: u32,
    /// The bytes of the tables.
    pub tables: &'a [u8],
}

/// The segments of a chain, each kind in the order of the descriptors.
#[derive(Debug, Drop, Clone, PartialEq)]
pub struct Chain {
    /// Those that the device reads.
    pub readable: Seq<Segment>,
    /// Those that the device writes.
    pub writable: Seq<Segment>,
}

/// What is wrong with a descriptor of a chain. Where several are, it is the first of them.
#[derive(Clone, Copy, Debug, PartialEq, Eq)]
pub enum ChainFault {
    /// There is no such place in the table.
    Index,
    /// The place was visited before.
    Loop,
    /// INDIRECT inside of an indirect table (VIRTIO 1.2, 2.7.5.3.1). In the packed form a table has none.
    Nested,
    /// INDIRECT with NEXT (VIRTIO 1.2, 2.7.5.3.1), and in the packed form behind a descriptor with NEXT too (2.8.7).
    NextWithIndirect,
    /// A table whose length is 0, is no multiple of a descriptor's, or is that of more descriptors than
    /// the queue has (VIRTIO 1.2, 2.7.5.3.1).
    TableLength,
    /// A readable segment after a writable one (VIRTIO 1.2, 2.7.4.2).
    Order,
    /// A segment or a table that isn't wholly where its kind stands.
    Range,
}
