//! Text that is held packed: bytes that it spells as hexadecimal digits are held as they are.
//!
//! A [`Packed`] is written as a text is, a word, a number or bytes at a time, and takes half the room for what it spells in
//! digits, and less for zeros. [`Spelling`] gives it as it reads. Where much text comes together, a [`Log`] has it in pieces.
#![tactic(auto)]

mod digits;
mod log;
mod marks;
mod packed;
mod spelling;
mod words;

pub use log::Log;
pub use packed::Packed;
pub use spelling::Spelling;
