//! A driver may be shared by threads, and clients' tokens may go to them.

use crate::driver::Driver;
use crate::half::Half;
use std::marker::{Send, Sync};
use vg_book::{Book, ClientToken};
use vg_machine::Display;
use vg_ring::{OfQueue, Rings};

/// Does nothing: it can be called where T may go to another thread.
fn may_be_sent<T: Send>() {}

/// Does nothing: it can be called where threads may share a T.
fn may_be_shared<T: Sync>() {}

/// Does nothing: that it calls `may_be_sent` and `may_be_shared` is the proof that a client may go to another thread with its
/// token, and that clients may share the book and the driver.
pub fn drivers_may_be_shared<B: vg_book::Naming + Send + Sync, N: Rings + Send + Sync>() {
    may_be_sent::<ClientToken<Display, B>>();
    may_be_shared::<Book<Display, B>>();
    may_be_sent::<Driver<B, N>>();
    may_be_shared::<Driver<B, N>>();
}

/// Does nothing: the same of one queue.
pub fn halves_may_be_sent<
    B: vg_book::Naming + Send + Sync,
    Q: vg_ring::Naming + OfQueue + Send + Sync,
>() {
    may_be_sent::<Half<Display, B, Q>>();
}
