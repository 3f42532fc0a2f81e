//! Small users of the book, over a counter. They show what its contracts are good for.
#![tactic(auto)]

mod add;
mod counter;
mod crossing;
mod desk;
mod meet;
mod share;
mod walk;

pub use add::{add_times, all_add};
pub use counter::{Act, Counter, Request};
pub use desk::{Desk, ask, serve};
pub use meet::{Post, both_meet};
pub use share::run_all;
pub use walk::command;
