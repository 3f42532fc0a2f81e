//! The calls of a client, as a script has them and a client makes them.
#![tactic(auto)]

mod call;

pub use call::{Body, Call, ContextRef, NameRef};
