//! What workers share, and they themselves, may go to other threads.

use crate::gate::Gate;
use crate::worker::Worker;
use std::marker::{Send, Sync};
use std::sync::Mutex;
use vg_book::{Book, Carried, ClientToken, LaneToken, Naming};
use vg_front::Front;
use vg_machine::Display;
use vg_ring::Rings;

/// Does nothing: it can be called where T may go to another thread.
fn may_be_sent<T: Send>() {}

/// Does nothing: it can be called where threads may share T.
fn may_be_shared<T: Sync>() {}

/// Does nothing: that it makes these calls is the proof that workers and clients may go to other threads.
pub fn workers_may_be_sent<'a, G: Gate + 'a, B: Naming + Send + Sync + 'a, N: Rings + Send + 'a>() {
    may_be_shared::<Mutex<Front<Carried<Display, B>, LaneToken<Display, B>, N>>>();
    may_be_shared::<Book<Display, B>>();
    may_be_sent::<Worker<'a, G, B, N>>();
    may_be_sent::<ClientToken<Display, B>>();
}
