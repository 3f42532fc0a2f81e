//! Rectangles of pixels, the pixel formats, rows of pixels as a screen shows them, and the entries of guest memory.
#![tactic(auto)]

mod entry;
mod format;
mod laws;
mod order;
mod rect;
mod rows;

pub use entry::MemEntry;
pub use format::Format;
pub use laws::{each_code_once, pixels_tell_the_rectangle, rows_are_their_bytes, show_each_pixel};
pub use rect::{Rect, pixel_bytes};
pub use rows::{show_row, show_rows};
