//! Work on threads: a thread's work is a struct, one, two or two lots of which run at once.
#![tactic(auto)]

mod crew;

pub use crew::{Job, Nobody, Quit, all, both, each};
