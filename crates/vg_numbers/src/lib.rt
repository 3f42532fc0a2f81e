//! Numbers in bytes, the lowest first (VIRTIO 1.2, 1.4): read at their places, and added behind others.
#![tactic(auto)]

mod fields;

pub use fields::{put_u16, put_u32, put_u64, u16_at, u32_at, u64_at};
