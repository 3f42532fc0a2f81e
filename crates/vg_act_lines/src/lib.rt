//! Acts and their replies, read back from the words of a journal's line.
//!
//! [`read_act`] and [`read_reply`] are the inverse of what [`put_act`](vg_journal_words::put_act) and
//! [`put_act_reply`](vg_journal_words::put_act_reply) print: each act and each reply is read from its own text, and from no
//! other. Any reply may stand beside any act.
#![tactic(auto)]

mod acts;
mod laws;
mod numbers;
mod replies;

pub use acts::read_act;
pub use laws::{acts_and_their_text, pages_and_their_text, replies_and_their_text};
pub use replies::read_reply;
