//! A session: the clients of a script and a device's workers on threads, over a book and two rings that stand ready, to the end
//! at which the book is closed.
#![tactic(auto)]

mod closing;
mod threads;

pub use closing::{Closed, close};
pub use threads::{Shared, run_threads};
