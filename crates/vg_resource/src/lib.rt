//! The 2D resources (VIRTIO 1.2, 5.7.6.8).
#![tactic(auto)]

mod pixels;
mod resource;

pub use pixels::Pixels;
pub use resource::{Resource, Resources, Surface};
