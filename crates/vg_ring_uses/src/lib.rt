//! Small users of a ring, whose two ends lie on two threads. They show what its contracts are good for.
#![tactic(auto)]

mod answering;
mod asking;
mod carrying;
mod ticket;
mod turn;

pub use answering::{Look, answer};
pub use asking::{Mix, Order, ask};
pub use carrying::{carry, index_seen};
pub use ticket::{Ticket, answered, ticketed, unanswered};
pub use turn::answer_turned;
