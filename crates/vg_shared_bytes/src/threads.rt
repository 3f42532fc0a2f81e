//! Bytes in strips may go to other threads.

use crate::strips::Strips;

/// Does nothing: it can be called where T may go to another thread.
fn may_be_sent<T: Send>() {}

/// Does nothing: that it calls `may_be_sent` is the proof that bytes may go to another thread, whoever shares strips of them.
pub fn strips_may_be_sent() {
    may_be_sent::<Strips>();
}
