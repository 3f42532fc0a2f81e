//! Two commands that one client has begun on timelines of their own, run in either order by two workers on threads: what is written
//! is what was run, and no function of the script alone.

use crossbeam_utils::Backoff;
use std::alloc::{AllocError, Global};
use std::marker::Sync;
use std::process::Abort;
use std::sync::Wait;
use std::sync::atomic::{AtomicBool, Ordering};
use std::test::*;
use std::thread::Threads;
use vg_io::{MemSink, MemSource};
use vg_run::{Status, vgpu};
use vg_worker::Gate;

/// SUBMIT_3D on ring indices 1 and 2 of a context, which are lanes 2 and 3 (VIRTIO 1.2, 5.7.6.7).
const SCRIPT: &[u8] =
    b"display 4 2\nclient\ncontext K\nbegin A K:1 submit K 1\nbegin B K:2 submit K 2\nawait A\nawait B\n";

/// How often a worker looks before it gives up.
const LOOKS: u32 = 100_000_000;

/// Holds the first command of a lane up until that of another lane was answered.
#[derive(Drop)]
struct Hold {
    lane: u32,
    until: u32,
    open: AtomicBool,
    gave_up: AtomicBool,
}

impl Hold {
    fn new(lane: u32, until: u32) -> Hold {
        Hold {
            lane,
            until,
            open: AtomicBool::new(false),
            gave_up: AtomicBool::new(false),
        }
    }

    fn wait(&self) {
        let backoff = Backoff::new();
        for _look in 0..LOOKS {
            if self.open.load(Ordering::SeqCst) {
                return;
            }
            backoff.snooze();
        }
        self.gave_up.store(true, Ordering::SeqCst);
    }
}

impl Gate for Hold {
    fn before(&self, lane: u32, ordinal: u64) {
        if lane == self.lane && ordinal == 1 {
            self.wait();
        }
    }

    fn answered(&self, lane: u32, ordinal: u64) {
        if lane == self.until && ordinal == 1 {
            self.open.store(true, Ordering::SeqCst);
        }
    }
}

/// The words of a run with two workers.
fn words(alloc: Global) -> Result<Vec<String>, AllocError> {
    let mut words = Vec::new(alloc);
    for word in ["run", "--workers", "2"] {
        words.push(String::from_str(alloc, word)?)?;
    }
    Ok(words)
}

/// What is written where the first command of a lane is held up until that of the other was answered.
fn written<R: Threads + Wait + Abort + Sync>(
    rt: &R,
    alloc: Global,
    lane: u32,
    until: u32,
) -> Result<String, Fail> {
    let words = words(alloc)?;
    let text = Vec::from_slice(alloc, SCRIPT)?;
    let mut source = MemSource::new(text, Vec::new(alloc));
    let mut sink = MemSink::new(alloc, 3_000, Vec::new(alloc))?;
    let gate = Hold::new(lane, until);
    let status = vgpu(rt, alloc, words.as_slice(), &mut source, &mut sink, &gate);
    assert_eq!(rt; status, Status::Done);
    assert!(rt; !gate.gave_up.load(Ordering::SeqCst));
    let bytes = Vec::from_slice(alloc, sink.bytes())?;
    Ok(String::from_utf8(bytes).ok().ok_or("it is text")?)
}

/// Whether a line with this text stands before one with the other.
fn stands_before(text: &str, one: &str, other: &str) -> bool {
    let mut seen = false;
    for line in text.lines() {
        if line.contains(other) {
            return seen;
        }
        seen |= line.contains(one);
    }
    false
}

#[test]
fn lane_two_after_lane_three(rt: HostRuntime) -> Result<(), Fail> {
    let text = written(&rt, rt.alloc(), 2, 3)?;
    assert!(rt; stands_before(text.as_str(), " cmd 3 1 ", " cmd 2 1 "));
    Ok(())
}

#[test]
fn lane_three_after_lane_two(rt: HostRuntime) -> Result<(), Fail> {
    let text = written(&rt, rt.alloc(), 3, 2)?;
    assert!(rt; stands_before(text.as_str(), " cmd 2 1 ", " cmd 3 1 "));
    Ok(())
}
