//! What a script settles for all, and one client's part of it: the calls of its lines, made one after another on the thread
//! that calls.
#![tactic(auto)]

mod laws;
mod performing;
mod setup;
mod telling;

pub use laws::{lines_number_contexts, lines_number_names};
pub use performing::{Performed, perform};
pub use setup::setup_of;
