//! The guest's driver: it submits commands on both queues of a device and takes their replies, for any number of threads.
#![tactic(auto)]

mod ask;
mod back;
mod driver;
mod half;
mod heard;
mod offer;
mod replies;
mod request;
mod threads;
mod ticket;

pub use ask::Ask;
pub use driver::Driver;
pub use half::Half;
pub use request::Way;
pub use threads::{drivers_may_be_shared, halves_may_be_sent};
pub use ticket::{Answer, Ticket};
pub use vg_history::Fence;
