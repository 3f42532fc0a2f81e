//! Whose bytes each frame of a journal has: a journal is checked first, and then its entries are read once more, and of each byte of the
//! display it is kept which clients stored it.
#![tactic(auto)]

mod found;
mod text;
mod tracing;

pub use found::{Found, origins};
pub use text::origins_text;
