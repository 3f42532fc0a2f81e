//! Whether a text is the journal of a legal history: its lines are read first, and then its entries are replayed.
#![tactic(auto)]

mod checking;
mod outlining;

pub use checking::{Checked, check};
pub use outlining::outlined;
