//! The journal of a run as text.
#![tactic(auto)]

mod journal;
mod lines;
mod printer;

pub use journal::{Journal, print};
