//! A journal read from its bytes.
//!
//! [`read`] gives the journal whose text some bytes are, or the piece at which they begin none: a piece is a line, or a frame's
//! pixels. [`scan`] reads as much and keeps no entry and no frame, but says where they begin.
#![tactic(auto)]

mod features;
mod lines;
mod pieces;
mod start;
mod whole;

pub use features::accepted_by_lines;
pub use lines::{Scanned, scan};
pub use whole::read;
