//! The law of a split virtqueue over a table that threads share (VIRTIO 1.2, 2.7), and the steps of its two ends.
#![tactic(auto)]

mod device;
mod driver;
mod law;
mod made;
mod places;
mod plays;
mod sending;
mod table;
mod views;
mod words;

pub use device::{
    cut_right, give_back, join_right, look_at_available, note_fetched, take_entry, take_reaped,
};
pub use driver::{look_at_used, note_reaped, take_answer, take_fetched};
pub use law::{Law, Line, Pass, Size};
pub use made::make_line;
pub use places::Places;
pub use sending::send;
pub use table::read_table;
pub use views::{DeviceStage, DeviceView, DriverStage, DriverView, Stored, View};
pub use words::words_are_bytes;
