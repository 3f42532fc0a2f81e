//! What the requests and responses of a virtio-gpu device are made of, as bytes (VIRTIO 1.2, 5.7.6), in both directions: the
//! header, the 2D commands, the modes. Whole requests and responses stand in vg_wire_ext.
//!
//! All fields are little-endian (VIRTIO 1.2, 1.4).
#![tactic(auto)]

mod entries;
mod header;
pub mod kinds;
mod laws;
mod modes;
mod rect;
mod request;
mod two_d;

pub use entries::{Entries, put_entries, read_entries};
pub use header::{Header, put_header, read_header};
pub use laws::what_is_written_is_read;
pub use modes::{Modes, put_modes, read_modes};
pub use rect::{put_rect, rect_at};
pub use request::{Malformed, Queue};
pub use two_d::{Command2d, is_2d, put_2d, put_two, read_2d, size_2d};
