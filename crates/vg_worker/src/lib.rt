//! A device's worker: it takes commands from a front, runs them on their lanes, and gives them back with their responses.
#![tactic(auto)]

mod answering;
mod gate;
mod resting;
mod serving;
mod taken;
mod threads;
mod worker;

pub use answering::answer;
pub use gate::{FreeGate, Gate, Passage};
pub use serving::serve;
pub use taken::{Found, look};
pub use threads::workers_may_be_sent;
pub use worker::Worker;
