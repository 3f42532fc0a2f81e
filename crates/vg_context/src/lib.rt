//! Contexts, and the resources that are attached to them (VIRTIO 1.2, 5.7.6.9).
#![tactic(auto)]

mod contexts;

pub use contexts::Contexts;
