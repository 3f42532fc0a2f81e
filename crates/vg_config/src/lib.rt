//! The features, the status and the configuration of a virtio-gpu device (VIRTIO 1.2, 2.1, 2.2, 5.7.3 and 5.7.4).
#![tactic(auto)]

mod config;
pub mod features;
mod negotiation;

pub use config::Config;
pub use negotiation::{Negotiation, Refused};
