//! Backings: ranges of guest memory whose bytes stand one after another (VIRTIO 1.2, 5.7.6.8).
#![tactic(auto)]

mod backing;
mod run;

pub use backing::Backing;
pub use run::Run;
