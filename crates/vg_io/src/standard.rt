//! A source over any reader of std, and a sink over any writer.

ghost use Rattle.std.specs.Prelude.{◌≡◌, ◌<◌, ◌≤◌, List, [], None, length, take, IfOk, OnErr, OnOk};
ghost use Rattle.std.specs.Io.KnownBytes.{Consumes, Appends, Keeps, IsAtEnd as IsKnownEnd};
ghost use Rattle.vg_io.specs.Streams.{Rose, Gives, IsAtEnd, Takes, next_count};

use super::{Failed, Sink, Source};
use std::io::{ErrorKind, Read, Write};
use std::marker::Model;

/// A source over a reader of std.
///
/// As a source it tells nothing of its bytes. What it gives is what the reader gave, in the same call.
/// A read that was interrupted is tried again; any other failure is a fault.
#[derive(Drop)]
pub struct StdSource<R: Read> {
    reader: R,
    faults: u64,
}

impl<R: Read> Model for StdSource<R> {
    ghost use Rattle.vg_io.specs.Standard.{Counted};

    ghost Value = { Counted R };

    ghost view = { λ s. record { inner = s.reader; faults = s.faults } };
}

impl<R: Read> StdSource<R> {
    /// A source over `reader`, with no fault so far.
    pub fn new(reader: R) -> StdSource<R>
        ensures reader { result.inner ≡ reader }
        ensures faults { result.faults ≡ 0 }
    {
        StdSource { reader, faults: 0 }
    }
}

impl<R: Read> Source for StdSource<R> {
    ghost left = { λ _. None };

    ghost faults = { λ s. s.faults };

    fn read(&mut self, buf: &mut [u8]) -> Result<usize, Failed>
        ensures room { IfOk result (λ n. n ≤ length buf.old) }
        ensures bytes { IfOk result (λ n. Gives None None (take n buf.new)) }
        ensures end { IfOk result (λ n. n ≡ 0 → 0 < length buf.old → IsAtEnd None) }
        ensures none { OnErr result (Gives None None []) }
        ensures cause { OnErr result (Rose self.old.faults self.new.faults) }
        ensures same { OnOk result (self.new.faults ≡ self.old.faults) }
        ensures count { self.old.faults ≤ self.new.faults }

        // What the reader tells is handed on, and each fault is counted once.
        ensures handed_on { IfOk result (λ n.
            Consumes (R.remaining self.old.inner) (R.remaining self.new.inner) (take n buf.new)) }
        ensures reader_end { IfOk result (λ n.
            n ≡ 0 → 0 < length buf.old → IsKnownEnd (R.remaining self.new.inner)) }
        ensures kept { OnErr result (Keeps (R.remaining self.old.inner) (R.remaining self.new.inner)) }
        ensures next { OnErr result (self.new.faults ≡ next_count self.old.faults) }
    {
        for _ in 0..u64::MAX {
            match self.reader.read(buf) {
                Ok(n) => return Ok(n),
                Err(e) => {
                    if e.kind() != ErrorKind::Interrupted {
                        break;
                    }
                }
            }
        }
        self.faults = self.faults.saturating_add(1);
        Err(Failed)
    }
}

/// A sink over a writer of std.
///
/// As a sink it tells nothing of its bytes. What it takes is what the writer took, in the same call, so
/// it keeps no byte back. A write that was interrupted is tried again; any other failure is a fault, and
/// so is a writer that takes nothing of a piece that isn't empty.
#[derive(Drop)]
pub struct StdSink<W: Write> {
    writer: W,
    faults: u64,
}

impl<W: Write> Model for StdSink<W> {
    ghost use Rattle.vg_io.specs.Standard.{Counted};

    ghost Value = { Counted W };

    ghost view = { λ s. record { inner = s.writer; faults = s.faults } };
}

impl<W: Write> StdSink<W> {
    /// A sink over `writer`, with no fault so far.
    pub fn new(writer: W) -> StdSink<W>
        ensures writer { result.inner ≡ writer }
        ensures faults { result.faults ≡ 0 }
    {
        StdSink { writer, faults: 0 }
    }
}

impl<W: Write> Sink for StdSink<W> {
    ghost held = { λ _. None };

    ghost faults = { λ s. s.faults };

    fn write(&mut self, bytes: &[u8]) -> Result<usize, Failed>
        requires { length bytes.now ≤ 65536 }
        ensures room { IfOk result (λ n. n ≤ length bytes.now) }
        ensures bytes { IfOk result (λ n. Takes None None (take n bytes.now)) }
        ensures some { IfOk result (λ n. 0 < length bytes.now → 0 < n) }
        ensures none { OnErr result (Takes None None []) }
        ensures cause { OnErr result (Rose self.old.faults self.new.faults) }
        ensures same { OnOk result (self.new.faults ≡ self.old.faults) }
        ensures count { self.old.faults ≤ self.new.faults }

        // What the writer tells is what it took, and each fault is counted once.
        ensures handed_on { IfOk result (λ n.
            Appends (W.contents self.old.inner) (W.contents self.new.inner) (take n bytes.now)) }
        ensures kept { OnErr result (Keeps (W.contents self.old.inner) (W.contents self.new.inner)) }
        ensures next { OnErr result (self.new.faults ≡ next_count self.old.faults) }
    {
        for _ in 0..u64::MAX {
            match self.writer.write(bytes) {
                Ok(0) if !bytes.is_empty() => break,
                Ok(n) => return Ok(n),
                Err(e) => {
                    if e.kind() != ErrorKind::Interrupted {
                        break;
                    }
                }
            }
        }
        self.faults = self.faults.saturating_add(1);
        Err(Failed)
    }
}
