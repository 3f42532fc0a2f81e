//! The words of a script's line: how numbers, HEX and names are spelled and what they say, and why a line is refused.
#![tactic(auto)]

mod kind;
mod words;

pub use kind::{Kind, Stop};
pub use words::{
    both_spelled, bytes_or_none, cut, hex_bytes, is, is_name, is_number, is_signed, is_text,
    limited, position, put_words, size, spelled, value,
};
