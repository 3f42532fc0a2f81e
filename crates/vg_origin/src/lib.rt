//! Where each byte of a frame comes from: laws of the tags of a display's bytes, moment by moment of a history.
#![tactic(auto)]

mod laws;

pub use laws::{
    frames_are_of_their_buffers, frames_have_origins, memory_is_of_its_buffer,
    pixels_are_of_their_buffer, pixels_have_origins, stores_follow_their_reserve,
};
