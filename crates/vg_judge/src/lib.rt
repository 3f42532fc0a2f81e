//! Whether a journal is that of a legal history, or what is wrong first: its entries are replayed one after another, and the frames
//! that they make are compared with the journal's, which stand behind the entries. Nothing is kept of either.
#![tactic(auto)]

mod entries;
mod frames;
mod judging;
mod laws;
mod verdicts;

pub use entries::Entries;
pub use laws::each_journal_has_one_verdict;
pub use verdicts::{Outline, Verdict, judge};
