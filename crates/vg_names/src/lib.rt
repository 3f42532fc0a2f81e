//! The names of a client's buffers, and of its contexts, by their numbers.
#![tactic(auto)]

mod contexts;
mod names;

pub use contexts::Contexts;
pub use names::{Held, Names};
