//! The commands that read a journal, and write what they say of it.

ghost use Rattle.std.specs.Prelude.{◌≡◌, ◌≤◌, ◌+◌, ◌++◌, ◌<◌, ℕ, length, Err, IfErr, IfOk, IfSome, OnErr, OnOk};
ghost use Rattle.vg_io.specs.Streams.{GivesUpTo, IsAtEnd, Rose, Takes, TakesSome};
ghost use Rattle.vg_journal_lines.specs.Refusals.{IsRefusedAt};
ghost use Rattle.vg_run.specs.Checks.{ChecksWrong, IsCheckable, wrong_text};
ghost use Rattle.vg_run.specs.JournalsWithin.{Answers, AnswersPartly, EndsFound, IsEndOf, Judges, Says, Told, Unchecked, written};
ghost use Rattle.vg_run.specs.Status.{EndsCheck, IsFaultless};
ghost use Rattle.vg_limits.specs.Limits.{version_2};

use crate::check_command::say_check;
use crate::origins_command::say_origins;
use crate::top::Status;
use crate::upgrade_command::say_upgrade;
use std::alloc::{AllocError, Global};
use vg_io::{Failed, ReadError, Sink, Source, read_all, write_all};
use vg_limits::version_2::MOST_JOURNAL;

/// What is asked of a journal.
#[derive(Clone, Copy)]
pub(crate) enum Question {
    /// Whether it is that of a legal history.
    Check,
    /// Whose bytes its frames have.
    Origins,
    /// How it is written with the queues of version 2.
    Upgrade,
}

/// What is said of a journal: a text, and behind it the journal's own bytes from a place on.
#[derive(Drop)]
pub(crate) struct Said {
    pub(crate) text: Vec<u8>,
    /// The place from which on the journal's bytes follow: its end where none do.
    pub(crate) rest: usize,
    /// How the call ends where all of it is written.
    pub(crate) end: Status,
}

/// Reads a journal, and writes what it is asked.
#[tactic(auto, using(crate::proofs::SaidLemmas::told_done, crate::proofs::SaidLemmas::told_wrong, crate::proofs::SaidLemmas::told_judges, crate::proofs::SaidLemmas::told_partly))]
pub(crate) fn answer_from<S: Source, K: Sink>(
    alloc: Global,
    asked: Question,
    source: &mut S,
    sink: &mut K,
) -> Status
    ensures done { result ≡ Status.Done
        → Answers asked (S.left source.old) (S.left source.new) (K.held sink.old) (K.held sink.new) }
    ensures wrong { (entry : ℕ) → result ≡ Status.Wrong entry
        → ChecksWrong entry (S.left source.old) (S.left source.new) (K.held sink.old) (K.held sink.new) }
    ensures judges { (entry : ℕ) → result ≡ Status.Wrong entry → Judges asked }
    ensures ends { EndsCheck result }
    ensures journal { (line : ℕ) → result ≡ Status.Journal line
        → IfSome (S.left source.old) (λ bytes. IsCheckable bytes × IsRefusedAt bytes line) × (sink.new ≡ sink.old) }
    ensures read_fault { result ≡ Status.ReadFault
        → Rose (S.faults source.old) (S.faults source.new) × (sink.new ≡ sink.old) }
    ensures read_early { result ≡ Status.ReadFault → GivesUpTo (S.left source.old) (S.left source.new) version_2.journal }
    ensures too_long { result ≡ Status.TooLong
        → IfSome (S.left source.old) (λ bytes. version_2.journal < length bytes) × (sink.new ≡ sink.old) }
    ensures write_fault { result ≡ Status.WriteFault → Rose (K.faults sink.old) (K.faults sink.new)
        × AnswersPartly asked (S.left source.old) (S.left source.new) (K.held sink.old) (K.held sink.new) }
    ensures no_memory { result ≡ Status.NoMemory → sink.new ≡ sink.old }
    ensures faultless { IsFaultless result
        → (S.faults source.new ≡ S.faults source.old) × (K.faults sink.new ≡ K.faults sink.old) }
    ensures read_before { result ≡ Status.WriteFault → S.faults source.new ≡ S.faults source.old }
    ensures taken { GivesUpTo (S.left source.old) (S.left source.new) (version_2.journal + 1) }
    ensures read_count { S.faults source.old ≤ S.faults source.new }
    ensures write_count { K.faults sink.old ≤ K.faults sink.new }
{
    match said_from(alloc, asked, source) {
        Ok((said, bytes)) => write_said(sink, &said, bytes.as_slice()),
        Err(status) => status,
    }
}

/// What is said of the journal that a source gives, and the journal's bytes, or how the call ends without them.
fn said_from<S: Source>(
    alloc: Global,
    asked: Question,
    source: &mut S,
) -> Result<(Said, Vec<u8>), Status>
    ensures end { IfOk result (λ pair. IsAtEnd (S.left source.new)) }
    ensures says { IfOk result (λ pair. IfSome (S.left source.old) (λ bytes.
        IsCheckable bytes × Says asked bytes pair.0.end (written pair.0.text.items pair.0.rest pair.1.items))) }
    ensures ends { IfOk result (λ pair. EndsFound pair.0.end) }
    ensures end_of { IfOk result (λ pair. IsEndOf asked pair.0.end) }
    ensures inside { IfOk result (λ pair. pair.0.rest ≤ length pair.1.items) }
    ensures err { IfErr result (λ status. Unchecked status (S.left source.old) (S.faults source.old) (S.faults source.new)) }
    ensures same { OnOk result (S.faults source.new ≡ S.faults source.old) }
    ensures taken { GivesUpTo (S.left source.old) (S.left source.new) (version_2.journal + 1) }
    ensures early { result ≡ Err Status.ReadFault → GivesUpTo (S.left source.old) (S.left source.new) version_2.journal }
    ensures count { S.faults source.old ≤ S.faults source.new }
{
    let bytes = journal_bytes(alloc, source)?;
    match say(alloc, asked, bytes.as_slice()) {
        Ok(Ok(said)) => Ok((said, bytes)),
        Ok(Err(line)) => Err(Status::Journal { line }),
        Err(_) => Err(Status::NoMemory),
    }
}

/// What is said of the journal that these bytes are, or the line at which they are none.
fn say(alloc: Global, asked: Question, bytes: &[u8]) -> Result<Result<Said, u32>, AllocError>
    requires { IsCheckable bytes.now }
    ensures says { IfOk result (λ read. IfOk read (λ said. Says asked bytes.now said.end (written said.text.items said.rest bytes.now))) }
    ensures ends { IfOk result (λ read. IfOk read (λ said. EndsFound said.end)) }
    ensures end_of { IfOk result (λ read. IfOk read (λ said. IsEndOf asked said.end)) }
    ensures inside { IfOk result (λ read. IfOk read (λ said. said.rest ≤ length bytes.now)) }
    ensures refused { IfOk result (λ read. IfErr read (IsRefusedAt bytes.now)) }
{
    match asked {
        Question::Check => say_check(alloc, bytes),
        Question::Origins => say_origins(alloc, bytes),
        Question::Upgrade => say_upgrade(alloc, bytes),
    }
}

/// All bytes that a source gives, or how the call ends without them.
fn journal_bytes<S: Source>(alloc: Global, source: &mut S) -> Result<Vec<u8>, Status>
    ensures end { OnOk result (IsAtEnd (S.left source.new)) }
    ensures all { IfOk result (λ bytes. IfSome (S.left source.old) (λ given. given ≡ bytes.items)) }
    ensures within { IfOk result (λ bytes. IsCheckable bytes.items) }
    ensures err { IfErr result (λ status. Unchecked status (S.left source.old) (S.faults source.old) (S.faults source.new)) }
    ensures same { OnOk result (S.faults source.new ≡ S.faults source.old) }
    ensures taken { GivesUpTo (S.left source.old) (S.left source.new) (version_2.journal + 1) }
    ensures early { result ≡ Err Status.ReadFault → GivesUpTo (S.left source.old) (S.left source.new) version_2.journal }
    ensures count { S.faults source.old ≤ S.faults source.new }
{
    match read_all(alloc, source, MOST_JOURNAL) {
        Ok(bytes) => Ok(bytes),
        Err(ReadError::Memory) => Err(Status::NoMemory),
        Err(ReadError::Fault) => Err(Status::ReadFault),
        Err(ReadError::TooLong) => Err(Status::TooLong),
    }
}

/// Writes what is said of the journal that these bytes are.
fn write_said<K: Sink>(sink: &mut K, said: &Said, bytes: &[u8]) -> Status
    requires ends { EndsFound said.now.end }
    requires inside { said.now.rest ≤ length bytes.now }
    ensures told { Told result said.now.end (written said.now.text.items said.now.rest bytes.now) (K.held sink.old) (K.held sink.new) (K.faults sink.old) (K.faults sink.new) }
    ensures count { K.faults sink.old ≤ K.faults sink.new }
{
    match write_both(sink, said.text.as_slice(), &bytes[said.rest..]) {
        Ok(()) => said.end,
        Err(_) => Status::WriteFault,
    }
}

/// Writes all of one text, and then all of another. Where it fails, the sink has taken a front of both together.
#[tactic(auto, using(crate::proofs::SaidLemmas::takes_two, crate::proofs::SaidLemmas::takes_some_of_first, crate::proofs::SaidLemmas::takes_some_of_both, crate::proofs::SaidLemmas::rose_later))]
fn write_both<K: Sink>(sink: &mut K, first: &[u8], second: &[u8]) -> Result<(), Failed>
    ensures ok { OnOk result (Takes (K.held sink.old) (K.held sink.new) (first.now ++ second.now)) }
    ensures failed { OnErr result (TakesSome (K.held sink.old) (K.held sink.new) (first.now ++ second.now)) }
    ensures cause { OnErr result (Rose (K.faults sink.old) (K.faults sink.new)) }
    ensures same { OnOk result (K.faults sink.new ≡ K.faults sink.old) }
    ensures count { K.faults sink.old ≤ K.faults sink.new }
{
    write_all(sink, first)?;
    write_all(sink, second)
}

/// The line that says which entry is wrong first.
#[tactic(auto, unfolding(crate::specs::Checks::wrong_text))]
pub(crate) fn wrong_line(alloc: Global, entry: u64) -> Result<Vec<u8>, AllocError>
    ensures { IfOk result (λ text. text.items ≡ wrong_text entry) }
{
    let line = format!(in alloc; "wrong {entry}\n")?;
    Ok(line.into_bytes())
}
