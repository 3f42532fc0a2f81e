//! Where bytes come from and where they go: sources, sinks, and the two loops over them.
#![tactic(auto)]

mod memory;
mod reading;
mod standard;
mod traits;
mod writing;

pub use memory::{MemSink, MemSource};
pub use reading::{ReadError, read_all};
pub use standard::{StdSink, StdSource};
pub use traits::{Failed, Sink, Source};
pub use writing::write_all;
