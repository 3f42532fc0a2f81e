//! The modes of the displays, as they are plugged, unplugged and resized, and whether that was noticed since (VIRTIO 1.2, 5.7.4).
#![tactic(auto)]

mod plugs;

pub use plugs::{Plugs, is_size};
