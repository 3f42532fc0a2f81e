//! A machine that lends the jobs of one of its lanes, and two lanes of a book over it, on threads.
#![tactic(auto)]

mod lanes;
mod waiter;

pub use lanes::both_run;
pub use waiter::{Flags, Job, Request, Sums, Waiter};
