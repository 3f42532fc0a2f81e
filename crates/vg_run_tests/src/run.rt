//! What no row of rows/ can show: reads and writes that fail at each call, and sources and sinks that move single bytes.

use std::alloc::{AllocError, Global};
use std::marker::Sync;
use std::sync::Wait;
use std::test::Fail;
use std::thread::Threads;
use vg_io::{Failed, MemSink, MemSource, Sink, Source};
use vg_run::{Status, vgpu};
use vg_worker::FreeGate;

/// How many bytes the journal here has at most.
const ROOM: usize = 3_000;

const SCRIPT: &[u8] = b"display 4 2\nmemory 16\nclient\nbuffer A 4 2 1\ntake 0\nflip 0 A\n";

/// A flip of 640 by 480 pixels, with room for its journal, which goes to the sink in several pieces.
const FLIP: &[u8] =
    b"display 640 480\nclient\nbuffer A 640 480 1\nstore A 0 01020304 307200\ntake 0\nflip 0 A\n";

const FLIP_ROOM: usize = 2_000_000;

/// How many bytes a sink is given at once, at the most.
const PIECE: usize = 65_536;

/// The one word of a call.
fn run_word(alloc: Global) -> Result<Vec<String>, AllocError> {
    let mut words = Vec::new(alloc);
    words.push(String::from_str(alloc, "run")?)?;
    Ok(words)
}

/// A source or a sink that moves one byte at a time.
#[derive(Drop)]
struct Sip<X>(X);

impl<S: Source> Source for Sip<S> {
    ghost left = { λ s. S.left s.0 };

    ghost faults = { λ s. S.faults s.0 };

    fn read(&mut self, buf: &mut [u8]) -> Result<usize, Failed> {
        let most = buf.len().min(1);
        self.0.read(&mut buf[..most])
    }
}

impl<K: Sink> Sink for Sip<K> {
    ghost held = { λ s. K.held s.0 };

    ghost faults = { λ s. K.faults s.0 };

    fn write(&mut self, bytes: &[u8]) -> Result<usize, Failed> {
        let most = bytes.len().min(1);
        self.0.write(&bytes[..most])
    }
}

/// A run of a script whose reads and writes of these numbers fail, into a sink of this room, and what it wrote. No call has
/// the number 0.
fn ran<R: Threads + Wait + Sync>(
    rt: &R,
    alloc: Global,
    script: &[u8],
    row: &Row,
) -> Result<(Status, Vec<u8>), AllocError> {
    let (read, write, room, _, _) = row;
    let run = run_word(alloc)?;
    let text = Vec::from_slice(alloc, script)?;
    let mut source = MemSource::new(text, vec![in alloc; *read]?);
    let mut sink = MemSink::new(alloc, *room, vec![in alloc; *write]?)?;
    let status = vgpu(rt, alloc, run.as_slice(), &mut source, &mut sink, &FreeGate);
    Ok((status, sink.bytes().to_vec(alloc)?))
}

/// The same by single bytes.
fn sipped<R: Threads + Wait + Sync>(
    rt: &R,
    alloc: Global,
    row: &Row,
) -> Result<(Status, Vec<u8>), AllocError> {
    let (read, write, room, _, _) = row;
    let run = run_word(alloc)?;
    let text = Vec::from_slice(alloc, SCRIPT)?;
    let mut source = Sip(MemSource::new(text, vec![in alloc; *read]?));
    let mut sink = Sip(MemSink::new(alloc, *room, vec![in alloc; *write]?)?);
    let status = vgpu(rt, alloc, run.as_slice(), &mut source, &mut sink, &FreeGate);
    Ok((status, sink.0.bytes().to_vec(alloc)?))
}

/// The numbers of a read and of a write that fail, the sink's room, how the run ends, and how much of the journal it leaves.
type Row = (u64, u64, usize, Status, usize);

/// A run that nothing fails in.
static WHOLE: Row = (0, 0, ROOM, Status::Done, ROOM);

/// By large pieces. A journal as short as this one is written in one.
static RUNS: [Row; 8] = [
    (1, 0, ROOM, Status::ReadFault, 0),
    (2, 0, ROOM, Status::ReadFault, 0),
    (3, 0, ROOM, Status::Done, ROOM),
    (0, 1, ROOM, Status::WriteFault, 0),
    (0, 2, ROOM, Status::Done, ROOM),
    (0, 0, 0, Status::WriteFault, 0),
    (0, 0, 1, Status::WriteFault, 1),
    (0, 0, 1_000, Status::WriteFault, 1_000),
];

/// By single bytes.
static SIPS: [Row; 5] = [
    (0, 0, ROOM, Status::Done, ROOM),
    (1, 0, ROOM, Status::ReadFault, 0),
    (30, 0, ROOM, Status::ReadFault, 0),
    (0, 1, ROOM, Status::WriteFault, 0),
    (0, 20, ROOM, Status::WriteFault, 19),
];

/// Whether a run ends as its row says.
fn is_due(row: &Row, ended: Status, written: &[u8], whole: &[u8]) -> bool {
    let (_, _, _, status, front) = row;
    ended == *status && whole.get(..whole.len().min(*front)) == Some(written)
}

#[test]
fn faults_leave_a_front(rt: HostRuntime) -> Result<(), Fail> {
    let (_, whole) = ran(&rt, rt.alloc(), SCRIPT, &WHOLE)?;
    assert!(rt; whole.as_slice().starts_with(b"vgpu-journal 2\n"));
    for row in &RUNS {
        let (status, written) = ran(&rt, rt.alloc(), SCRIPT, row)?;
        assert!(rt;
            is_due(row, status, written.as_slice(), whole.as_slice()),
            "{row:?}"
        );
    }
    Ok(())
}

#[test]
fn single_bytes_give_the_same(rt: HostRuntime) -> Result<(), Fail> {
    let (_, whole) = ran(&rt, rt.alloc(), SCRIPT, &WHOLE)?;
    for row in &SIPS {
        let (status, written) = sipped(&rt, rt.alloc(), row)?;
        assert!(rt;
            is_due(row, status, written.as_slice(), whole.as_slice()),
            "{row:?}"
        );
    }
    Ok(())
}

/// The status and what is written of the flip whose read and whose write of these numbers fail.
fn flipped<R: Threads + Wait + Sync>(
    rt: &R,
    alloc: Global,
    read: u64,
    write: u64,
) -> Result<(Status, Vec<u8>), AllocError> {
    ran(rt, alloc, FLIP, &(read, write, FLIP_ROOM, Status::Done, 0))
}

#[test]
fn each_write_of_a_flip_fails_in_turn(rt: HostRuntime) -> Result<(), Fail> {
    let (_, whole) = flipped(&rt, rt.alloc(), 0, 0)?;
    assert!(rt; whole.len() > 18 * PIECE && whole.len() < 100 * PIECE);
    let pieces = whole.len().div_ceil(PIECE);
    for before in 0..pieces {
        let (status, written) = flipped(&rt, rt.alloc(), 0, before as u64 + 1)?;
        assert!(rt; status == Status::WriteFault, "{before}");
        assert!(rt;
            whole.get(..PIECE * before) == Some(written.as_slice()),
            "{before}"
        );
    }
    let (status, written) = flipped(&rt, rt.alloc(), 0, pieces as u64 + 1)?;
    assert!(rt; status == Status::Done && written == whole);
    Ok(())
}

#[test]
fn each_read_of_a_flip_fails_in_turn(rt: HostRuntime) -> Result<(), Fail> {
    let (_, whole) = flipped(&rt, rt.alloc(), 0, 0)?;
    for read in 1..3 {
        let (status, written) = flipped(&rt, rt.alloc(), read, 0)?;
        assert!(rt; status == Status::ReadFault && written.is_empty(), "{read}");
    }
    let (status, written) = flipped(&rt, rt.alloc(), 3, 0)?;
    assert!(rt; status == Status::Done && written == whole);
    Ok(())
}
