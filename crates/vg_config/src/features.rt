//! The features that a device offers, by their names in the standard without its prefixes (VIRTIO 1.2, 5.7.3 and 6), each by the
//! value of its bit in a set.

pub(crate) const VIRGL_BIT: u32 = 0;

const EDID_BIT: u32 = 1;

const RESOURCE_UUID_BIT: u32 = 2;

const RESOURCE_BLOB_BIT: u32 = 3;

pub(crate) const CONTEXT_INIT_BIT: u32 = 4;

const INDIRECT_DESC_BIT: u32 = 28;

const EVENT_IDX_BIT: u32 = 29;

pub(crate) const VERSION_1_BIT: u32 = 32;

/// 3D commands.
pub const VIRGL: u64 = 1 << VIRGL_BIT;

/// GET_EDID.
pub const EDID: u64 = 1 << EDID_BIT;

/// RESOURCE_ASSIGN_UUID.
pub const RESOURCE_UUID: u64 = 1 << RESOURCE_UUID_BIT;

/// Blobs.
pub const RESOURCE_BLOB: u64 = 1 << RESOURCE_BLOB_BIT;

/// Kinds of contexts, which need VIRGL.
pub const CONTEXT_INIT: u64 = 1 << CONTEXT_INIT_BIT;

/// Indirect tables of descriptors.
pub const INDIRECT_DESC: u64 = 1 << INDIRECT_DESC_BIT;

/// Kicks by event index.
pub const EVENT_IDX: u64 = 1 << EVENT_IDX_BIT;

/// The standard from its version 1 on.
pub const VERSION_1: u64 = 1 << VERSION_1_BIT;

/// The features that commands need.
const GPU: u64 = VIRGL | EDID | RESOURCE_UUID | RESOURCE_BLOB | CONTEXT_INIT;

/// All that are offered.
pub const OFFERED: u64 = GPU | INDIRECT_DESC | EVENT_IDX | VERSION_1;

/// Those of them that a setup keeps: how kicks are made leaves no trace in a history.
pub const KEPT: u64 = OFFERED - EVENT_IDX;
