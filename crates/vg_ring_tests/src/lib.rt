//! Tests of the two ends of a virtqueue over their public calls, in one thread and in two.
#![tactic(auto)]

#[cfg(test)]
mod one_thread;
#[cfg(test)]
mod two_threads;
