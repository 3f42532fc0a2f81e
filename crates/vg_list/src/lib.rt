//! The list type that stands for a `Vec` in public structs and enums.
#![tactic(auto)]

mod seq;

pub use seq::Seq;
