//! The cursors of the scanouts (VIRTIO 1.2, 5.7.6.10), and how they are blended into a screen.
#![tactic(auto)]

mod blend;
mod cursor;
mod laws;
mod look;
mod span;

pub use cursor::{Cursor, Cursors};
pub use laws::cover_each_pixel;
pub use look::{Look, Rows};
