//! A source and a sink in memory, which fail where they are told to.

ghost use Rattle.std.specs.Prelude.{◌≡◌, ◌<◌, ◌≤◌, ◌-◌, ◌+◌, ◌++◌, ◌↔◌, ℕ, List, [], Some, length, take, drop, min, IfOk, OnErr, OnOk, IsErr};
ghost use Rattle.vg_io.specs.Streams.{Rose, Gives, IsAtEnd, Takes, next_count};
ghost use Rattle.vg_io.specs.Memory.{ReadFails, WriteFails};

use super::{Failed, Sink, Source};
use std::alloc::{AllocError, Global};
use std::marker::Model;

/// A source of bytes that lie in memory.
///
/// A contract sees the bytes left, the numbers of the calls that are to fail, how many calls were made
/// and how many of them failed. Both counts stand still at 2^64 - 1. No call takes memory.
#[derive(Debug, Drop)]
pub struct MemSource {
    bytes: Vec<u8>,
    at: usize,
    fail_at: Vec<u64>,
    calls: u64,
    faults: u64,
}

impl Model for MemSource {
    ghost use Rattle.std.specs.Prelude.{◌≤◌, drop, vec_len};
    ghost use Rattle.vg_io.specs.Memory.{Feed};

    ghost Value = { Feed };

    ghost view = { λ s. record {
      rest = drop s.at s.bytes.items;
      fail_at = s.fail_at.items;
      calls = s.calls;
      faults = s.faults;
    } };

    ghost invariant = { λ s. s.at ≤ vec_len s.bytes };
}

impl MemSource {
    /// A source of `bytes` whose calls fail that `fail_at` lists by their numbers, counted from 1.
    pub fn new(bytes: Vec<u8>, fail_at: Vec<u64>) -> MemSource
        ensures rest { result.rest ≡ bytes.items }
        ensures fail_at { result.fail_at ≡ fail_at.items }
        ensures calls { result.calls ≡ 0 }
        ensures faults { result.faults ≡ 0 }
    {
        MemSource {
            bytes,
            at: 0,
            fail_at,
            calls: 0,
            faults: 0,
        }
    }
}

impl Source for MemSource {
    ghost left = { λ s. Some s.rest };

    ghost faults = { λ s. s.faults };

    fn read(&mut self, buf: &mut [u8]) -> Result<usize, Failed>
        ensures room { IfOk result (λ n. n ≤ length buf.old) }
        ensures bytes { IfOk result (λ n. Gives (Some self.old.rest) (Some self.new.rest) (take n buf.new)) }
        ensures end { IfOk result (λ n. n ≡ 0 → 0 < length buf.old → IsAtEnd (Some self.new.rest)) }
        ensures none { OnErr result (Gives (Some self.old.rest) (Some self.new.rest) []) }
        ensures cause { OnErr result (Rose self.old.faults self.new.faults) }
        ensures same { OnOk result (self.new.faults ≡ self.old.faults) }
        ensures count { self.old.faults ≤ self.new.faults }

        // When it fails, and what each answer leaves.
        ensures fails { IsErr result ↔ ReadFails self.old }
        ensures all { IfOk result (λ n. n ≡ min (length buf.old) (length self.old.rest)) }
        ensures filled { IfOk result (λ n. buf.new ≡ take n self.old.rest ++ drop n buf.old) }
        ensures untouched { OnErr result (buf.new ≡ buf.old) }
        ensures ok { IfOk result (λ n.
            self.new ≡ record self.old { rest = drop n self.old.rest; calls = next_count self.old.calls }) }
        ensures err { OnErr result (self.new ≡
            record self.old { calls = next_count self.old.calls; faults = next_count self.old.faults }) }
    {
        self.calls = self.calls.saturating_add(1);
        if self.fail_at.contains(&self.calls) {
            self.faults = self.faults.saturating_add(1);
            return Err(Failed);
        }
        let rest = &self.bytes[self.at..];
        let n = buf.len().min(rest.len());
        buf[..n].copy_from_slice(&rest[..n]);
        self.at += n;
        Ok(n)
    }
}

/// A sink that keeps its bytes in memory.
///
/// A contract sees the bytes held, how many it has room for, the numbers of the calls that are to fail,
/// how many calls were made and how many of them failed. Both counts stand still at 2^64 - 1.
#[derive(Debug, Drop)]
pub struct MemSink {
    bytes: Vec<u8>,
    room: usize,
    fail_at: Vec<u64>,
    calls: u64,
    faults: u64,
}

impl Model for MemSink {
    ghost use Rattle.std.specs.Prelude.{◌≤◌, vec_len, vec_capacity};
    ghost use Rattle.vg_io.specs.Memory.{Store};

    ghost Value = { Store };

    ghost view = { λ s. record {
      bytes = s.bytes.items;
      room = s.room;
      fail_at = s.fail_at.items;
      calls = s.calls;
      faults = s.faults;
    } };

    ghost invariant = { λ s. (vec_len s.bytes ≤ s.room) × (s.room ≤ vec_capacity s.bytes) };
}

impl MemSink {
    /// A sink with room for `room` bytes, whose calls fail that `fail_at` lists by their numbers, counted
    /// from 1. It takes the memory of all its bytes here, and no later call takes any.
    pub fn new(alloc: Global, room: usize, fail_at: Vec<u64>) -> Result<MemSink, AllocError>
        ensures bytes { IfOk result (λ sink. sink.bytes ≡ []) }
        ensures room { IfOk result (λ sink. sink.room ≡ room) }
        ensures fail_at { IfOk result (λ sink. sink.fail_at ≡ fail_at.items) }
        ensures calls { IfOk result (λ sink. sink.calls ≡ 0) }
        ensures faults { IfOk result (λ sink. sink.faults ≡ 0) }
    {
        Ok(MemSink {
            bytes: Vec::with_capacity(alloc, room)?,
            room,
            fail_at,
            calls: 0,
            faults: 0,
        })
    }

    /// The bytes that it holds.
    pub fn bytes(&self) -> &[u8]
        ensures { result.now ≡ self.now.bytes }
    {
        self.bytes.as_slice()
    }
}

impl Sink for MemSink {
    ghost held = { λ s. Some s.bytes };

    ghost faults = { λ s. s.faults };

    fn write(&mut self, bytes: &[u8]) -> Result<usize, Failed>
        requires { length bytes.now ≤ 65536 }
        ensures room { IfOk result (λ n. n ≤ length bytes.now) }
        ensures bytes { IfOk result (λ n. Takes (Some self.old.bytes) (Some self.new.bytes) (take n bytes.now)) }
        ensures some { IfOk result (λ n. 0 < length bytes.now → 0 < n) }
        ensures none { OnErr result (Takes (Some self.old.bytes) (Some self.new.bytes) []) }
        ensures cause { OnErr result (Rose self.old.faults self.new.faults) }
        ensures same { OnOk result (self.new.faults ≡ self.old.faults) }
        ensures count { self.old.faults ≤ self.new.faults }

        // When it fails, and what each answer leaves.
        ensures fails { IsErr result ↔ WriteFails self.old bytes.now }
        ensures all { IfOk result (λ n. n ≡ min (length bytes.now) (self.old.room - length self.old.bytes)) }
        ensures ok { IfOk result (λ n.
            self.new ≡ record self.old { bytes = self.old.bytes ++ take n bytes.now; calls = next_count self.old.calls }) }
        ensures err { OnErr result (self.new ≡
            record self.old { calls = next_count self.old.calls; faults = next_count self.old.faults }) }
    {
        self.calls = self.calls.saturating_add(1);
        let free = self.room - self.bytes.len();
        if self.fail_at.contains(&self.calls) || (free == 0 && !bytes.is_empty()) {
            self.faults = self.faults.saturating_add(1);
            return Err(Failed);
        }
        let n = bytes.len().min(free);
        self.bytes.extend_from_slice(&bytes[..n]).unwrap();
        Ok(n)
    }
}
