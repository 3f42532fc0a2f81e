//! A run, and the writing of its journal.

ghost use Rattle.std.specs.Prelude.{◌≡◌, ◌≤◌, IfOk, OnOk, OnErr};
ghost use Rattle.vg_io.specs.Streams.{Rose, Takes, TakesPart, TakesSome};
ghost use Rattle.vg_journal.specs.Text.{text_of};

use crate::printer::{PrintError, print_text};
use std::alloc::{AllocError, Global};
use vg_io::{Failed, Sink};
use vg_list::Seq;
use vg_machine::{Frame, History, Setup};

/// A run: its setup, its history, how many of its commands were on each queue, and its frames.
#[derive(Drop)]
pub struct Journal {
    pub setup: Setup,
    pub entries: History,
    pub control: u64,
    pub cursor: u64,
    pub frames: Seq<Frame>,
}

/// Writes the journal's text in pieces of at most 65,536 bytes. After a fault a front of
/// the text is written, after want of memory a front that isn't all of it.
#[tactic(auto, using(crate::proofs::PrintingLemmas::taken_some))]
pub fn print<K: Sink>(
    alloc: Global,
    journal: &Journal,
    sink: &mut K,
) -> Result<Result<(), Failed>, AllocError>
    ensures done { IfOk result (λ printed. OnOk printed (Takes (K.held sink.old) (K.held sink.new) (text_of journal.now))) }
    ensures failed { IfOk result (λ printed. OnErr printed (TakesSome (K.held sink.old) (K.held sink.new) (text_of journal.now))) }
    ensures memory { OnErr result (TakesPart (K.held sink.old) (K.held sink.new) (text_of journal.now)) }
    ensures cause { IfOk result (λ printed. OnErr printed (Rose (K.faults sink.old) (K.faults sink.new))) }
    ensures same { IfOk result (λ printed. OnOk printed (K.faults sink.new ≡ K.faults sink.old)) }
    ensures same_memory { OnErr result (K.faults sink.new ≡ K.faults sink.old) }
    ensures count { K.faults sink.old ≤ K.faults sink.new }
{
    match print_text(alloc, sink, journal) {
        Ok(()) => Ok(Ok(())),
        Err(PrintError::Fault) => Ok(Err(Failed)),
        Err(PrintError::Memory) => Err(AllocError),
    }
}
