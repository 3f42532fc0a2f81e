//! Whether each entry of a journal stands rightly behind those before it.
#![tactic(auto)]

mod checker;
mod counts;
mod deniable;
mod laws;
mod plugs;
mod same;
mod seen;
mod step;

pub use checker::Checker;
pub use laws::{frames_stay, one_entry_is_wrong_first, right_entries_go_on, right_is_sound};
