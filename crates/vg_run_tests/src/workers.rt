//! How many workers run, which no clause and no row says: a worker leaves no trace in a journal.

use std::alloc::{AllocError, Global};
use std::marker::Sync;
use std::process::Abort;
use std::sync::Wait;
use std::sync::atomic::{AtomicBool, AtomicU32, Ordering};
use std::test::*;
use std::thread::{Threads, yield_now};
use vg_io::{MemSink, MemSource};
use vg_run::{Status, vgpu};
use vg_worker::Gate;

/// GET_DISPLAY_INFO of four clients, of ring indices 0 to 3 (VIRTIO 1.2, 5.7.6.7): a command on each of four lanes.
const SCRIPT: &[u8] =
    b"display 4 2\nclient\nraw control 24 plain 000100000200000000000000000000000000000000000000\nclient\nraw control 24 plain 000100000200000000000000000000000000000001000000\nclient\nraw control 24 plain 000100000200000000000000000000000000000002000000\nclient\nraw control 24 plain 000100000200000000000000000000000000000003000000\n";

/// How often a worker looks for the others before it gives up.
const LOOKS: u32 = 10_000_000;

/// How often it looks once all are there, whether one more comes.
const MORE_LOOKS: u32 = 1_000;

/// Counts the workers that have a command in hand, and holds them up until as many of them have.
#[derive(Drop)]
struct Muster {
    due: u32,
    there: AtomicU32,
    most: AtomicU32,
    open: AtomicBool,
}

impl Muster {
    fn new(due: u32) -> Muster {
        Muster {
            due,
            there: AtomicU32::new(0),
            most: AtomicU32::new(0),
            open: AtomicBool::new(false),
        }
    }

    /// How many had a command in hand at once, at most.
    fn most(&self) -> u32 {
        self.most.load(Ordering::SeqCst)
    }

    /// Looks so often at most, until so many have been there at once or the gate is open.
    fn wait_for(&self, count: u32, looks: u32) {
        for _look in 0..looks {
            if count <= self.most() || self.open.load(Ordering::SeqCst) {
                return;
            }
            yield_now();
        }
    }
}

impl Gate for Muster {
    fn before(&self, _lane: u32, _ordinal: u64) {
        let there = self.there.fetch_add(1, Ordering::SeqCst).saturating_add(1);
        self.most.fetch_max(there, Ordering::SeqCst);
        self.wait_for(self.due, LOOKS);
        self.wait_for(self.due.saturating_add(1), MORE_LOOKS);
        self.open.store(true, Ordering::SeqCst);
    }

    fn answered(&self, _lane: u32, _ordinal: u64) {
        self.there.fetch_sub(1, Ordering::SeqCst);
    }
}

/// The words of a call with so many workers, or with none said.
fn run_words(alloc: Global, workers: Option<&str>) -> Result<Vec<String>, AllocError> {
    let mut words = Vec::new(alloc);
    words.push(String::from_str(alloc, "run")?)?;
    if let Some(workers) = workers {
        words.push(String::from_str(alloc, "--workers")?)?;
        words.push(String::from_str(alloc, workers)?)?;
    }
    Ok(words)
}

/// How many workers have a command in hand at once, at most, in a run with these words that ends well.
fn mustered<R: Threads + Wait + Abort + Sync>(
    rt: &R,
    alloc: Global,
    workers: Option<&str>,
    due: u32,
) -> Result<u32, Fail> {
    let words = run_words(alloc, workers)?;
    let text = Vec::from_slice(alloc, SCRIPT)?;
    let mut source = MemSource::new(text, Vec::new(alloc));
    let mut sink = MemSink::new(alloc, 3_000, Vec::new(alloc))?;
    let gate = Muster::new(due);
    let status = vgpu(rt, alloc, words.as_slice(), &mut source, &mut sink, &gate);
    assert_eq!(rt; status, Status::Done);
    Ok(gate.most())
}

/// What the words say of workers, and how many there are.
static WORKERS: [(Option<&str>, u32); 3] = [(None, 2), (Some("1"), 1), (Some("3"), 3)];

#[test]
fn as_many_workers_as_the_words_say(rt: HostRuntime) -> Result<(), Fail> {
    for (workers, due) in &WORKERS {
        assert_eq!(rt; mustered(&rt, rt.alloc(), *workers, *due)?, *due);
    }
    Ok(())
}
