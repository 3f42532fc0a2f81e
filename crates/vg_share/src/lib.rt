//! The guest memory that clients share: buffers of whole pages, and the leases of scanouts. All of it is our own: the standard
//! has neither.
#![tactic(auto)]

mod cells;
mod holders;
mod lists;
mod page_list;
mod share;

pub use cells::{load, pages_of, store_times};
pub use lists::remove_number;
pub use page_list::PageList;
pub use share::{Buffer, Geometry, Share, ShareRefusal};
