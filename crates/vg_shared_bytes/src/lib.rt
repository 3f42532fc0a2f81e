//! Bytes in strips, which several lists of bytes may share.
#![tactic(auto)]

mod plan;
mod strip;
mod strips;
mod threads;

pub use strips::Strips;
pub use threads::strips_may_be_sent;
