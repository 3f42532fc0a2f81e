//! What goes over a virtqueue, whatever its form: requests with their room and their passes, and the lists of what went.
#![tactic(auto)]

mod cargo;
mod entries;
mod gather;
mod parcel;

pub use cargo::{Cargo, Opening};
pub use entries::{Answer, Entry};
pub use parcel::{Command, Opened, Parcel, Tag};
