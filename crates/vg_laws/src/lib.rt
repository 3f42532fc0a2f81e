//! Laws of `Bool`, `Option`, `Result`, numbers and lists, for the proofs of any crate; there is no code (proofs/).
#![tactic(auto)]
