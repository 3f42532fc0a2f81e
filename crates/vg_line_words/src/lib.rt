//! The words of a journal's line, read back: the parts of a text between marks, numbers, bytes as digits, and lists of numbers.
//!
//! Each reader is the inverse of what prints such a word, and says nothing of any other word. What it reads is printed as the
//! word that it was read from.
#![tactic(auto)]

mod laws;
mod words;

pub use laws::{
    bytes_and_their_words, lists_and_their_words, numbers_and_their_words,
    plain_words_and_their_line, words_and_their_line,
};
pub use words::{any_bytes, bytes, number, number32, numbers, put_parts, short_number};
