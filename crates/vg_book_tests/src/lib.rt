//! Tests of the history that threads share over its public calls, with a counter as the machine, and one that lends.
#![tactic(auto)]

#[cfg(test)]
mod counter;
#[cfg(test)]
mod lending;
