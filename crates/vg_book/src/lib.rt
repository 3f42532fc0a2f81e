//! The book: one history that threads share.
//!
//! Any number of threads act on one [`Machine`](vg_history::Machine), and what they did is one list of entries, in which
//! each reply is the machine's of one thread. A client acts by its token and makes passes for requests; a lane's token
//! runs passes. Who has a token knows a beginning of the history, which its calls lengthen, and at the end
//! `Book::close` gives the machine and the whole.
#![tactic(auto)]

mod board;
mod book;
mod client;
mod held;
mod lane;
mod laws;
mod note;
mod outcome;
mod pass;
mod plays;
mod root;
mod seats;
mod steps;
mod turn;

pub use board::{
    Account, Board, Core, Counted, Finished, Key, Law, Naming, Order, Place, Slot, View,
};
pub use book::{Book, Opened};
pub use client::ClientToken;
pub use lane::LaneToken;
pub use laws::calls_stand_behind;
pub use note::Note;
pub use outcome::Carried;
pub use pass::{DonePass, Pass};
pub use root::Root;
