//! The two halves of a bell may go to other threads.

use crate::ringer::Ringer;
use crate::sleeper::Sleeper;

/// Does nothing: it can be called where T may go to another thread.
fn may_be_sent<T: Send>() {}

/// Does nothing: that it calls `may_be_sent` is the proof that both halves may go to another thread.
pub fn halves_may_be_sent() {
    may_be_sent::<Ringer>();
    may_be_sent::<Sleeper>();
}
