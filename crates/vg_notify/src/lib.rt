//! Bells: a kick from one thread to another, rung only where the other one waits for it (VIRTIO 1.2, 2.7.7.2 and 2.7.10).
#![tactic(auto)]

mod agree;
mod bell;
mod law;
mod laws;
mod need;
mod plays;
mod ringer;
mod ringing;
mod sleeper;
mod sleeping;
mod threads;
mod views;

pub use agree::bell_agrees;
pub use bell::Bell;
pub use laws::{kick_at_every_moment, need_is_passing};
pub use need::need_event;
pub use ringer::Ringer;
pub use sleeper::Sleeper;
pub use threads::halves_may_be_sent;
pub use views::{RingerStage, RingerView, SleeperView, View};
