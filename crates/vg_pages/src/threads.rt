//! Guest memory, and what was lent of it, may go to other threads.

use crate::lent::LentBytes;
use crate::memory::Pages;

/// Does nothing: it can be called where T may go to another thread.
fn may_be_sent<T: Send>() {}

/// Does nothing: that it calls `may_be_sent` is the proof that guest memory, and what was lent of it, may go to other threads.
pub fn pages_may_be_sent() {
    may_be_sent::<Pages>();
    may_be_sent::<LentBytes>();
}
