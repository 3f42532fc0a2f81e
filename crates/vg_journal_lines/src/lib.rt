//! The lines of a journal, read back from their words.
//!
//! Each reader is the inverse of what prints such a line: what a line says is read from its own words, and from no other.
//!
//! A journal is read piece by piece, a piece being a line, or a frame's pixels. [`take_line`] and [`take_pixels`] say which piece may
//! come next, and what is known then. The laws say that a text whose pieces are taken to the end is one journal's, and where
//! another that begins no journal is refused.
#![tactic(auto)]

mod counts;
mod entries;
mod head;
mod laws;
mod numbers;
mod state;
mod steps;

pub use counts::{FrameHead, frame_of, frames_of, is_end, rings_of};
pub use entries::read_entry;
pub use head::{
    Feature, Version, clients_of, display_of, is_host, is_queues, memory_of, title_of, without_of,
};
pub use laws::{
    clients_and_their_words, counts_and_their_lines, displays_and_their_words, end_and_its_words,
    entries_and_their_words, features_and_their_words, frame_heads_and_their_words,
    frames_and_their_words, host_and_its_words, journals_and_their_pieces,
    journals_and_their_refusals, journals_and_their_text, pages_and_their_words,
    pieces_and_their_text, queues_and_their_words, rings_and_their_words, title_and_its_words,
};
pub use state::{LeftOut, Stage, State};
pub use steps::{Given, take_line, take_pixels};
