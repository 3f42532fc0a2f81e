//! The program's one call.

ghost use Rattle.std.specs.Prelude.{◌≡◌, ◌≤◌, ◌↔◌, ◌<◌, ◌⊎◌, ◌+◌, ℕ, length, map, string_bytes, IfSome};
ghost use Rattle.vg_io.specs.Streams.{GivesUpTo, Rose};
ghost use Rattle.vg_script.specs.Grammar.{Faulty};
ghost use Rattle.vg_journal_lines.specs.Refusals.{IsRefusedAt};
ghost use Rattle.vg_run.specs.Headline.{IsRun, IsWithin, Runs, RunsNotToItsEnd, RunsPartly};
ghost use Rattle.vg_run.specs.Checks.{Checks, ChecksPartly, ChecksWrong, IsCheck, IsCheckable, IsCommand, IsOrigins, IsUpgrade, JudgesJournal, ReadsJournal};
ghost use Rattle.vg_run.specs.Generates.{IsGen, IsGenOfSome, Sums, SumsPartly};
ghost use Rattle.vg_run.specs.Origins.{Tells, TellsPartly};
ghost use Rattle.vg_run.specs.Upgrade.{Upgrades, UpgradesPartly};
ghost use Rattle.vg_run.specs.Status.{EndsGen, IsFaultless};
ghost use Rattle.vg_limits.specs.Limits.{version_2};

use crate::gen_command::gen_from;
use crate::journals::{Question, answer_from};
use crate::run_command::run_from;
use crate::words::{Command, command_of};
use std::alloc::Global;
use std::marker::Sync;
use std::sync::Wait;
use std::thread::Threads;
use vg_io::{Sink, Source};
use vg_worker::Gate;

/// How a call of the program ended.
#[derive(Clone, Copy, Debug, PartialEq, Eq)]
pub enum Status {
    /// The journal is written, of a run or with the queues of version 2, or that it is one of a legal history, or whose bytes its frames
    /// have, or the sums of a workload.
    Done,
    /// The journal isn't that of a legal history: this entry, counted from 1, is the first that isn't right, or with 0 something
    /// behind the entries. That is written.
    Wrong { entry: u64 },
    /// The words after the program's name aren't known.
    Usage,
    /// The text is no script: its first fault is on this line, from 1, and of this kind, as `ScriptFault` has them.
    Script { line: u32, kind: u8 },
    /// The text is no journal: no journal begins with its lines up to this one, from 1. A frame's pixels are one line.
    Journal { line: u32 },
    /// A read failed.
    ReadFault,
    /// A write failed.
    WriteFault,
    /// The source has more bytes than a script, or a journal, may have.
    TooLong,
    /// Memory ran out.
    NoMemory,
}

/// Runs the program: `words` are those after its name. `run` reads a script from `source`, runs its clients on threads beside
/// two workers of the device, or as many as `--workers` says, and writes the journal to `sink`. Workers pass the gate with each
/// command that they take. `check` reads a journal from `source`, and writes to `sink` whether it is that of a legal history. `gen`
/// makes a workload (vg_gen), runs it beside two workers, and writes its summary to `sink`: six lines, of a name and a number each.
/// `origins` reads a journal, and where it is that of a legal history writes which clients stored the bytes of each frame. `upgrade`
/// reads a journal of either version, and writes the same with the queues of version 2; it doesn't judge it.
///
/// At most one byte past the longest script, or journal, is taken from the source. After want of memory nothing, or
/// a front of the journal that isn't all of it, is written.
pub fn vgpu<R: Threads + Wait + Sync, S: Source, K: Sink, G: Gate>(
    rt: &R,
    alloc: Global,
    words: &[String],
    source: &mut S,
    sink: &mut K,
    gate: &G,
) -> Status
    // The source was read to its end; its bytes are a script, within the limit; and what the sink took is the journal and
    // the frames of one history that is legal for that script.
    ensures done { IsRun (map string_bytes words.now) → result ≡ Status.Done
        → Runs (S.left source.old) (S.left source.new) (K.held sink.old) (K.held sink.new) }

    // The source was read to its end; its bytes are the journal of a legal history, within the limit; and what the sink took is
    // the line that says so, with the numbers of its entries and frames.
    ensures done_check { IsCheck (map string_bytes words.now) → result ≡ Status.Done
        → Checks (S.left source.old) (S.left source.new) (K.held sink.old) (K.held sink.new) }

    // The source was read to its end; its bytes are the journal of a legal history, within the limit; and what the sink took are
    // the lines that say for each frame which clients stored the bytes that it shows.
    ensures done_origins { IsOrigins (map string_bytes words.now) → result ≡ Status.Done
        → Tells (S.left source.old) (S.left source.new) (K.held sink.old) (K.held sink.new) }

    // The source was read to its end; its bytes are a journal, within the limit; and what the sink took is the text of the same journal
    // with the queues of version 2.
    ensures done_upgrade { IsUpgrade (map string_bytes words.now) → result ≡ Status.Done
        → Upgrades (S.left source.old) (S.left source.new) (K.held sink.old) (K.held sink.new) }

    // Only the commands that judge a journal have this answer, and `upgrade` never has it.
    ensures wrong { (entry : ℕ) → result ≡ Status.Wrong entry → JudgesJournal (map string_bytes words.now)
        × ChecksWrong entry (S.left source.old) (S.left source.new) (K.held sink.old) (K.held sink.new) }

    // What the sink took is the summary of one history that is legal for the workload's script, with the numbers that the words say.
    ensures done_gen { (number clients : ℕ) → IsGen (map string_bytes words.now) number clients → result ≡ Status.Done
        → Sums number clients (K.held sink.old) (K.held sink.new) }

    ensures usage { (result ≡ Status.Usage) ↔ ¬ IsCommand (map string_bytes words.now) }
    ensures usage_same { result ≡ Status.Usage → (source.new ≡ source.old) × (sink.new ≡ sink.old) }
    ensures script { (line kind : ℕ) → result ≡ Status.Script line kind → IsRun (map string_bytes words.now)
        × IfSome (S.left source.old) (λ bytes. IsWithin bytes × Faulty bytes line kind) × (sink.new ≡ sink.old) }
    ensures journal { (line : ℕ) → result ≡ Status.Journal line → ReadsJournal (map string_bytes words.now)
        × IfSome (S.left source.old) (λ bytes. IsCheckable bytes × IsRefusedAt bytes line) × (sink.new ≡ sink.old) }
    ensures read_fault { result ≡ Status.ReadFault
        → Rose (S.faults source.old) (S.faults source.new) × (sink.new ≡ sink.old) }
    ensures read_early { IsRun (map string_bytes words.now) → result ≡ Status.ReadFault
        → GivesUpTo (S.left source.old) (S.left source.new) 16777216 }
    ensures read_early_journal { ReadsJournal (map string_bytes words.now) → result ≡ Status.ReadFault
        → GivesUpTo (S.left source.old) (S.left source.new) version_2.journal }
    ensures too_long { IsRun (map string_bytes words.now) → result ≡ Status.TooLong
        → IfSome (S.left source.old) (λ bytes. 16777216 < length bytes) × (sink.new ≡ sink.old) }
    ensures too_long_journal { ReadsJournal (map string_bytes words.now) → result ≡ Status.TooLong
        → IfSome (S.left source.old) (λ bytes. version_2.journal < length bytes) × (sink.new ≡ sink.old) }
    ensures write_fault { IsRun (map string_bytes words.now) → result ≡ Status.WriteFault → Rose (K.faults sink.old) (K.faults sink.new)
        × RunsPartly (S.left source.old) (S.left source.new) (K.held sink.old) (K.held sink.new) }
    ensures write_fault_check { IsCheck (map string_bytes words.now) → result ≡ Status.WriteFault → Rose (K.faults sink.old) (K.faults sink.new)
        × ChecksPartly (S.left source.old) (S.left source.new) (K.held sink.old) (K.held sink.new) }
    ensures write_fault_origins { IsOrigins (map string_bytes words.now) → result ≡ Status.WriteFault → Rose (K.faults sink.old) (K.faults sink.new)
        × TellsPartly (S.left source.old) (S.left source.new) (K.held sink.old) (K.held sink.new) }
    ensures write_fault_upgrade { IsUpgrade (map string_bytes words.now) → result ≡ Status.WriteFault → Rose (K.faults sink.old) (K.faults sink.new)
        × UpgradesPartly (S.left source.old) (S.left source.new) (K.held sink.old) (K.held sink.new) }
    ensures write_fault_gen { (number clients : ℕ) → IsGen (map string_bytes words.now) number clients → result ≡ Status.WriteFault
        → Rose (K.faults sink.old) (K.faults sink.new) × SumsPartly number clients (K.held sink.old) (K.held sink.new) }
    ensures no_memory { IsRun (map string_bytes words.now) → result ≡ Status.NoMemory → (sink.new ≡ sink.old)
        ⊎ RunsNotToItsEnd (S.left source.old) (S.left source.new) (K.held sink.old) (K.held sink.new) }
    ensures no_memory_journal { ReadsJournal (map string_bytes words.now) → result ≡ Status.NoMemory → sink.new ≡ sink.old }

    ensures no_memory_gen { IsGenOfSome (map string_bytes words.now) → result ≡ Status.NoMemory → sink.new ≡ sink.old }

    // `gen` ends in no other way than these, and reads nothing.
    ensures ends_gen { IsGenOfSome (map string_bytes words.now) → EndsGen result }

    // No read or write fails unless that is the answer.
    ensures faultless { IsFaultless result
        → (S.faults source.new ≡ S.faults source.old) × (K.faults sink.new ≡ K.faults sink.old) }
    ensures read_before { result ≡ Status.WriteFault → S.faults source.new ≡ S.faults source.old }

    ensures taken { IsRun (map string_bytes words.now) → GivesUpTo (S.left source.old) (S.left source.new) 16777217 }
    ensures taken_journal { ReadsJournal (map string_bytes words.now) → GivesUpTo (S.left source.old) (S.left source.new) (version_2.journal + 1) }
    ensures taken_gen { IsGenOfSome (map string_bytes words.now) → source.new ≡ source.old }
    ensures read_count { S.faults source.old ≤ S.faults source.new }
    ensures write_count { K.faults sink.old ≤ K.faults sink.new }
{
    match command_of(words) {
        Some(Command::Run { workers }) => run_from(rt, alloc, workers, source, sink, gate),
        Some(Command::Check) => answer_from(alloc, Question::Check, source, sink),
        Some(Command::Origins) => answer_from(alloc, Question::Origins, source, sink),
        Some(Command::Upgrade) => answer_from(alloc, Question::Upgrade, source, sink),
        Some(Command::Gen { number, clients }) => gen_from(rt, alloc, number, clients, sink, gate),
        None => Status::Usage,
    }
}
