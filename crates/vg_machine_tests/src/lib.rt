//! Tests of a display that lends copies, over its public calls, on one thread.
#![tactic(auto)]

#[cfg(test)]
mod copies;
#[cfg(test)]
mod rig;
