//! The bytes of a display written in any ink: values, tags that say where a byte comes from, sets of clients; and laws of them.
#![tactic(auto)]

mod laws;

pub use laws::{inks_agree, numbers_are_the_bytes, sets_are_of_the_tags};
