//! All requests and responses of a virtio-gpu device as bytes (VIRTIO 1.2, 5.7.6), in both directions: the commands of
//! capsets, EDID, UUIDs, blobs, contexts and cursors stand here, the 2D commands in vg_wire. And what a request names that a
//! device may have to wait for, read from its bytes without taking memory.
//!
//! All fields are little-endian (VIRTIO 1.2, 1.4). UUID bytes are as they are.
#![tactic(auto)]

mod command;
mod fields;
mod laws;
mod names;
mod naming;
mod read;
mod request;
mod response;
mod write;

pub use command::Command;
pub use laws::{a_request_or_a_refusal, each_refusal};
pub use names::Named;
pub use naming::named;
pub use request::{read_request, write_request};
pub use response::{Response, append_response, read_response, write_response};
