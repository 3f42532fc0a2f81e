//! The backings of resources, and what TRANSFER_TO_HOST_2D copies from them (VIRTIO 1.2, 5.7.6.8).
#![tactic(auto)]

mod backings;

pub use backings::{Backings, Region, each_pixel_tells_the_transfer, place};
