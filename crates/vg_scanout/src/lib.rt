//! The scanouts: what they are bound to, what they show, and the frames that they have shown (VIRTIO 1.2, 5.7.6.8).
#![tactic(auto)]

mod flush;
mod laws;
mod panel;
mod scanout;
mod taken;

pub use laws::a_flush_makes_frames_of_what_it_touches;
pub use scanout::{Binding, Frame, Scanouts};
