//! What the workers of a device share of its two rings: what was fetched and waits, lane by lane, and the lanes' tokens.
//!
//! A [`Front`] lies under a lock. A worker takes one [`step`](Front::step) at a time: it fetches, or takes the oldest
//! command of a lane that nobody works on, with that lane's token, and gives both back once the command is done. So the
//! commands of one lane run one after another, in the order in which they were published.
#![tactic(auto)]

mod desk;
mod front;
mod loan;
mod threads;

pub use front::{Front, Work};
pub use loan::Loan;
pub use threads::fronts_may_be_sent;
