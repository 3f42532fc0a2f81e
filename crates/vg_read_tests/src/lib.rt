//! Tests of the reader of journals.
#![tactic(auto)]

#[cfg(test)]
mod reading;
