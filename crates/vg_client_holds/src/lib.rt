//! What a client does to what is shared, what it holds by that, and which commands are allowed to it. All of it is our own.
#![tactic(auto)]

mod act;
mod buffers;
mod foreign;
mod growing;
mod holds;
mod host;
mod setup;

pub use act::{Act, ActReply, What};
pub use buffers::Buffers;
pub use growing::holds_only_grow;
pub use holds::{Holds, denied, denied_command};
pub use host::is_part;
pub use setup::{Setup, accepted_features_are_faultless, parties};
