//! The laws that the sizes of the queues settle nothing of a history. It has no code.
#![tactic(auto)]

mod laws;

pub use laws::{legal_with_other_queues, sound_with_other_queues};
