//! The command `gen`: a workload is made and run, and it is said what came of it.

ghost use Rattle.std.specs.Prelude.{◌≡◌, ◌≤◌, ◌<◌, ◌+◌, ◌++◌, count_by, string_bytes, IfOk, OnOk};
ghost use Rattle.vg_io.specs.Streams.{Rose};
ghost use Rattle.vg_legal.specs.Legal.{is_on_control, is_on_cursor};
ghost use Rattle.vg_run.specs.Generates.{Sums, SumsPartly, frame_bytes, is_act, summary_line, summary_text};
ghost use Rattle.vg_run.specs.Status.{EndsGen, IsFaultless};
ghost use Rattle.vg_run.specs.SummingWithin.{IsJournalOf, IsSummaryOf, Summed};

use crate::top::Status;
use std::alloc::{AllocError, Global};
use std::marker::Sync;
use std::sync::Wait;
use std::thread::Threads;
use vg_gen::{generate, workloads_are_scripts};
use vg_io::{Sink, write_all};
use vg_journal::Journal;
use vg_legal::drive;
use vg_machine::Frame;
use vg_script::parse;
use vg_worker::Gate;

/// How many workers of the device run a workload.
const WORKERS: u32 = 2;

/// Runs the workload of a number with so many clients, and writes its summary.
pub(crate) fn gen_from<R: Threads + Wait + Sync, K: Sink, G: Gate>(
    rt: &R,
    alloc: Global,
    number: u64,
    clients: u32,
    sink: &mut K,
    gate: &G,
) -> Status
    requires clients { (1 ≤ clients) × (clients ≤ 16) }
    ensures done { result ≡ Status.Done → Sums number clients (K.held sink.old) (K.held sink.new) }
    ensures ends { EndsGen result }
    ensures write_fault { result ≡ Status.WriteFault → Rose (K.faults sink.old) (K.faults sink.new)
        × SumsPartly number clients (K.held sink.old) (K.held sink.new) }
    ensures no_memory { result ≡ Status.NoMemory → sink.new ≡ sink.old }
    ensures faultless { IsFaultless result → K.faults sink.new ≡ K.faults sink.old }
    ensures write_count { K.faults sink.old ≤ K.faults sink.new }
{
    match summary(rt, alloc, number, clients, gate) {
        Ok(text) => write(number, clients, text.as_str(), sink),
        Err(_) => Status::NoMemory,
    }
}

/// Writes the summary of a workload.
fn write<K: Sink>(number: u64, clients: u32, text: &str, sink: &mut K) -> Status
    requires summary { IsSummaryOf number clients text.now }
    ensures summed { Summed result number clients (K.held sink.old) (K.held sink.new) (K.faults sink.old) (K.faults sink.new) }
    ensures count { K.faults sink.old ≤ K.faults sink.new }
{
    match write_all(sink, text.as_bytes()) {
        Ok(()) => Status::Done,
        Err(_) => Status::WriteFault,
    }
}

/// The summary of a run of the workload.
fn summary<R: Threads + Wait + Sync, G: Gate>(
    rt: &R,
    alloc: Global,
    number: u64,
    clients: u32,
    gate: &G,
) -> Result<String, AllocError>
    requires clients { (1 ≤ clients) × (clients ≤ 16) }
    ensures { IfOk result (λ text. IsSummaryOf number clients (string_bytes text)) }
{
    let journal = run_workload(rt, alloc, number, clients, gate)?;
    summary_of(alloc, clients, &journal)
}

/// The journal of a run of the workload.
fn run_workload<R: Threads + Wait + Sync, G: Gate>(
    rt: &R,
    alloc: Global,
    number: u64,
    clients: u32,
    gate: &G,
) -> Result<Journal, AllocError>
    requires clients { (1 ≤ clients) × (clients ≤ 16) }
    ensures { IfOk result (IsJournalOf number clients) }
{
    workloads_are_scripts();
    let text = generate(alloc, number, clients)?;
    match parse(alloc, text.as_bytes())? {
        Ok(script) => drive(rt, alloc, script, WORKERS, gate),
        // The text of a workload has no fault.
        Err(_) => unreachable!(),
    }
}

/// The summary of a journal.
#[tactic(auto, unfolding(crate::specs::Generates::summary_text))]
fn summary_of(alloc: Global, clients: u32, journal: &Journal) -> Result<String, AllocError>
    requires control { journal.now.control ≡ count_by is_on_control journal.now.entries }
    requires cursor { journal.now.cursor ≡ count_by is_on_cursor journal.now.entries }
    ensures { IfOk result (λ text. string_bytes text ≡ summary_text clients journal.now) }
{
    let mut text = String::new(alloc);
    put_line(&mut text, "clients", u128::from(clients))?;
    put_line(&mut text, "acts", u128::from(acts_of(journal)))?;
    put_line(&mut text, "control", u128::from(journal.control))?;
    put_line(&mut text, "cursor", u128::from(journal.cursor))?;
    put_line(&mut text, "frames", journal.frames.len() as u128)?;
    put_line(&mut text, "bytes", bytes_of(journal.frames.as_slice()))?;
    Ok(text)
}

#[tactic(auto, using(crate::proofs::TextLemmas::line_is))]
fn put_line(text: &mut String, name: &str, number: u128) -> Result<(), AllocError>
    ensures { OnOk result (string_bytes text.new ≡ string_bytes text.old ++ summary_line name.now number) }
{
    write!(text, "{name} {number}\n")
}

/// How many entries of a journal are acts.
fn acts_of(journal: &Journal) -> u64
    requires control { journal.now.control ≡ count_by is_on_control journal.now.entries }
    requires cursor { journal.now.cursor ≡ count_by is_on_cursor journal.now.entries }
    ensures { result ≡ count_by is_act journal.now.entries }
{
    journal.entries.len() as u64 - journal.control - journal.cursor
}

/// How many bytes of pixels frames have.
fn bytes_of(frames: &[Frame]) -> u128
    ensures { result ≡ frame_bytes frames.now }
{
    let mut bytes = 0;
    for frame in frames {
        bytes += frame.pixels.len() as u128;
    }
    bytes
}
