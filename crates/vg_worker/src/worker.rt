//! A worker on a thread.

use crate::gate::Passage;
use crate::serving::serve_past;
use std::alloc::Global;
use std::marker::Sync;
use std::sync::atomic::AtomicBool;
use std::sync::{Mutex, Wait};
use std::thread::Threads;
use vg_book::{Book, Carried, LaneToken, Naming};
use vg_front::Front;
use vg_jobs::Job;
use vg_machine::Display;
use vg_ring::Rings;

/// A worker that is to serve a front, as [`serve`](crate::serve) does, on a thread. Each gate is a passage.
#[derive(Drop)]
pub struct Worker<'a, G: Passage, B: Naming, N: Rings> {
    pub(crate) alloc: Global,
    pub(crate) front: &'a Mutex<Front<Carried<Display, B>, LaneToken<Display, B>, N>>,
    pub(crate) book: &'a Book<Display, B>,
    pub(crate) gate: &'a G,
    pub(crate) stop: &'a AtomicBool,
}

impl<'a, G: Passage, B: Naming, N: Rings> Worker<'a, G, B, N> {
    pub fn new(
        alloc: Global,
        front: &'a Mutex<Front<Carried<Display, B>, LaneToken<Display, B>, N>>,
        book: &'a Book<Display, B>,
        gate: &'a G,
        stop: &'a AtomicBool,
    ) -> Worker<'a, G, B, N> {
        Worker {
            alloc,
            front,
            book,
            gate,
            stop,
        }
    }
}

impl<'a, G: Passage, B: Naming, N: Rings> Job<()> for Worker<'a, G, B, N> {
    ghost is_ready = { λ worker. Unit {0} };

    ghost gives = { λ worker result. Unit {0} };

    fn run<R: Threads + Wait + Sync>(self, rt: &R) {
        serve_past(rt, &self);
    }
}
