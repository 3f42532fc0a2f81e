//! Laws of holds, shares and ids, over every history of the display.
#![tactic(auto)]

mod laws;

pub use laws::{holds_are_linked, replayed_states_are_consistent, resources_are_of_buffers};
