//! Large scripts, made from a number: a workload of many clients that draw, share buffers and wait for each other.
#![tactic(auto)]

mod draws;
mod laws;
mod text;

pub use laws::workloads_are_scripts;
pub use text::generate;
