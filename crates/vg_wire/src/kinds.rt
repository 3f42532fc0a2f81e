//! The kinds of commands and responses, by their names in the standard without its prefixes (VIRTIO 1.2, 5.7.6.7, enum
//! virtio_gpu_ctrl_type). An error's kind is its code.

// 2D commands, and those that go beside them
pub const GET_DISPLAY_INFO: u32 = 0x0100;

pub const RESOURCE_CREATE_2D: u32 = 0x0101;

pub const RESOURCE_UNREF: u32 = 0x0102;

pub const SET_SCANOUT: u32 = 0x0103;

pub const RESOURCE_FLUSH: u32 = 0x0104;

pub const TRANSFER_TO_HOST_2D: u32 = 0x0105;

pub const RESOURCE_ATTACH_BACKING: u32 = 0x0106;

pub const RESOURCE_DETACH_BACKING: u32 = 0x0107;

pub const GET_CAPSET_INFO: u32 = 0x0108;

pub const GET_CAPSET: u32 = 0x0109;

pub const GET_EDID: u32 = 0x010a;

pub const RESOURCE_ASSIGN_UUID: u32 = 0x010b;

pub const RESOURCE_CREATE_BLOB: u32 = 0x010c;

pub const SET_SCANOUT_BLOB: u32 = 0x010d;

// commands of contexts
pub const CTX_CREATE: u32 = 0x0200;

pub const CTX_DESTROY: u32 = 0x0201;

pub const CTX_ATTACH_RESOURCE: u32 = 0x0202;

pub const CTX_DETACH_RESOURCE: u32 = 0x0203;

pub const SUBMIT_3D: u32 = 0x0207;

// commands of the cursor queue
pub const UPDATE_CURSOR: u32 = 0x0300;

pub const MOVE_CURSOR: u32 = 0x0301;

// responses
pub const OK_NODATA: u32 = 0x1100;

pub const OK_DISPLAY_INFO: u32 = 0x1101;

pub const OK_CAPSET_INFO: u32 = 0x1102;

pub const OK_CAPSET: u32 = 0x1103;

pub const OK_EDID: u32 = 0x1104;

pub const OK_RESOURCE_UUID: u32 = 0x1105;

// errors
pub const ERR_UNSPEC: u32 = 0x1200;

pub const ERR_OUT_OF_MEMORY: u32 = 0x1201;

pub const ERR_INVALID_SCANOUT_ID: u32 = 0x1202;

pub const ERR_INVALID_RESOURCE_ID: u32 = 0x1203;

pub const ERR_INVALID_CONTEXT_ID: u32 = 0x1204;

pub const ERR_INVALID_PARAMETER: u32 = 0x1205;
