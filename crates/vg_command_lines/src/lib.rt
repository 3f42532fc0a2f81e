//! A command's request and its reply, read back from the words of a journal's line.
//!
//! [`read_request`] and [`read_command_reply`] are the inverse of what a journal prints: each request and each reply is read from
//! its own text, and from no other. Any reply may stand beside any request.
#![tactic(auto)]

mod commands;
mod laws;
mod shapes;

pub use commands::{read_command_reply, read_request};
pub use laws::{command_replies_and_their_text, requests_and_their_text, shapes_and_their_words};
