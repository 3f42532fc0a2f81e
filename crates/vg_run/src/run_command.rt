//! The command `run`: a script is read, its clients run, and the journal is written.

ghost use Rattle.std.specs.Prelude.{◌≡◌, ◌≤◌, ◌<◌, ◌⊎◌, ℕ, length, Err, IfOk, IfErr, OnOk, IfSome};
ghost use Rattle.vg_io.specs.Streams.{GivesUpTo, IsAtEnd, Rose};
ghost use Rattle.vg_script.specs.Grammar.{Faulty, Parses};
ghost use Rattle.vg_script.specs.Limits.{ScriptInLimits};
ghost use Rattle.vg_run.specs.Headline.{IsWithin, Runs, RunsNotToItsEnd, RunsPartly};
ghost use Rattle.vg_run.specs.PrintingWithin.{Written};
ghost use Rattle.vg_run.specs.Status.{Ended, EndsRun, IsFaultless, Unread};
ghost use Rattle.vg_journal.specs.Text.{text_of};

use crate::top::Status;
use std::alloc::Global;
use std::marker::Sync;
use std::sync::Wait;
use std::thread::Threads;
use vg_io::{ReadError, Sink, Source, read_all};
use vg_journal::{Journal, print};
use vg_legal::drive;
use vg_script::{Script, parse};
use vg_worker::Gate;

/// How many bytes a script has at most.
const LIMIT: usize = 16_777_216;

/// Reads a script, runs it beside so many workers, and writes its journal.
pub(crate) fn run_from<R: Threads + Wait + Sync, S: Source, K: Sink, G: Gate>(
    rt: &R,
    alloc: Global,
    workers: u32,
    source: &mut S,
    sink: &mut K,
    gate: &G,
) -> Status
    requires workers { (1 ≤ workers) × (workers ≤ 8) }
    ensures done { result ≡ Status.Done
        → Runs (S.left source.old) (S.left source.new) (K.held sink.old) (K.held sink.new) }
    ensures ends { EndsRun result }
    ensures script { (line kind : ℕ) → result ≡ Status.Script line kind
        → IfSome (S.left source.old) (λ bytes. IsWithin bytes × Faulty bytes line kind) × (sink.new ≡ sink.old) }
    ensures read_fault { result ≡ Status.ReadFault
        → Rose (S.faults source.old) (S.faults source.new) × (sink.new ≡ sink.old) }
    ensures read_early { result ≡ Status.ReadFault → GivesUpTo (S.left source.old) (S.left source.new) 16777216 }
    ensures too_long { result ≡ Status.TooLong
        → IfSome (S.left source.old) (λ bytes. 16777216 < length bytes) × (sink.new ≡ sink.old) }
    ensures write_fault { result ≡ Status.WriteFault → Rose (K.faults sink.old) (K.faults sink.new)
        × RunsPartly (S.left source.old) (S.left source.new) (K.held sink.old) (K.held sink.new) }
    ensures no_memory { result ≡ Status.NoMemory → (sink.new ≡ sink.old)
        ⊎ RunsNotToItsEnd (S.left source.old) (S.left source.new) (K.held sink.old) (K.held sink.new) }
    ensures faultless { IsFaultless result
        → (S.faults source.new ≡ S.faults source.old) × (K.faults sink.new ≡ K.faults sink.old) }
    ensures read_before { result ≡ Status.WriteFault → S.faults source.new ≡ S.faults source.old }
    ensures taken { GivesUpTo (S.left source.old) (S.left source.new) 16777217 }
    ensures read_count { S.faults source.old ≤ S.faults source.new }
    ensures write_count { K.faults sink.old ≤ K.faults sink.new }
{
    match read_script(alloc, source) {
        Ok(script) => write_run(rt, alloc, script, workers, sink, gate),
        Err(status) => status,
    }
}

/// The script that a source gives, or why it can't be had.
fn read_script<S: Source>(alloc: Global, source: &mut S) -> Result<Script, Status>
    ensures end { IfOk result (λ script. IsAtEnd (S.left source.new)) }
    ensures parses { IfOk result (λ script. IfSome (S.left source.old) (λ bytes. IsWithin bytes × Parses bytes script)) }
    ensures runnable { IfOk result ScriptInLimits }
    ensures err { IfErr result (λ status. Unread status (S.left source.old) (S.faults source.old) (S.faults source.new)) }
    ensures same { OnOk result (S.faults source.new ≡ S.faults source.old) }
    ensures taken { GivesUpTo (S.left source.old) (S.left source.new) 16777217 }
    ensures early { result ≡ Err Status.ReadFault → GivesUpTo (S.left source.old) (S.left source.new) 16777216 }
    ensures count { S.faults source.old ≤ S.faults source.new }
{
    let bytes = match read_all(alloc, source, LIMIT) {
        Ok(bytes) => bytes,
        Err(ReadError::Memory) => return Err(Status::NoMemory),
        Err(ReadError::Fault) => return Err(Status::ReadFault),
        Err(ReadError::TooLong) => return Err(Status::TooLong),
    };
    match parse(alloc, bytes.as_slice()) {
        Ok(Ok(script)) => Ok(script),
        Ok(Err(fault)) => Err(Status::Script {
            line: fault.line,
            kind: fault.kind,
        }),
        Err(_) => Err(Status::NoMemory),
    }
}

/// Runs a script, and writes its journal.
fn write_run<R: Threads + Wait + Sync, K: Sink, G: Gate>(
    rt: &R,
    alloc: Global,
    script: Script,
    workers: u32,
    sink: &mut K,
    gate: &G,
) -> Status
    requires limits { ScriptInLimits script }
    requires workers { (1 ≤ workers) × (workers ≤ 8) }
    ensures ended { (Ended result script (K.held sink.old) (K.held sink.new) (K.faults sink.old) (K.faults sink.new))
        ⊎ ((result ≡ Status.NoMemory) × (sink.new ≡ sink.old)) }
    ensures count { K.faults sink.old ≤ K.faults sink.new }
{
    match drive(rt, alloc, script, workers, gate) {
        Ok(journal) => write(alloc, &journal, sink),
        Err(_) => Status::NoMemory,
    }
}

/// Writes a journal.
fn write<K: Sink>(alloc: Global, journal: &Journal, sink: &mut K) -> Status
    ensures written { Written result (text_of journal.now) (K.held sink.old) (K.held sink.new) (K.faults sink.old) (K.faults sink.new) }
    ensures count { K.faults sink.old ≤ K.faults sink.new }
{
    match print(alloc, journal, sink) {
        Ok(Ok(())) => Status::Done,
        Ok(Err(_)) => Status::WriteFault,
        Err(_) => Status::NoMemory,
    }
}
