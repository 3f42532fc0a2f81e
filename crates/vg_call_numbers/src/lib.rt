//! Which call numbers a client has used.
#![tactic(auto)]

mod gaps;
mod laws;
mod numbers;

pub use laws::{entries_have_all_numbers, entries_have_no_such_number, entries_use_numbers};
pub use numbers::CallNumbers;
