//! A test of a front over the public calls of a ring and of the front, on one thread, and what it drives the front by.
#![tactic(auto)]

#[cfg(test)]
mod lanes;
pub mod rig;
