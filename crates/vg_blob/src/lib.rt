//! Guest blobs, and the UUIDs of resources (VIRTIO 1.2, 5.7.6.8).
#![tactic(auto)]

mod blobs;
mod uuids;

pub use blobs::{Blob, Blobs};
pub use uuids::Uuids;
