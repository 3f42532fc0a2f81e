//! The text of a journal on its way to a sink, through a buffer.

ghost use Rattle.std.specs.Prelude.{◌≡◌, ◌<◌, ◌≤◌, ◌+◌, ◌^◌, ◌++◌, [], length, take, OnOk, OnErr, IsErrOf};
ghost use Rattle.std.specs.List.{concat};
ghost use Rattle.vg_io.specs.Streams.{Rose, Takes, TakesPart, TakesSome};
ghost use Rattle.vg_journal.specs.PrintingWithin.{Printed, PrintedSome};
ghost use Rattle.vg_text.specs.Text.{numbered};
ghost use Rattle.vg_journal.specs.Text.{counts_text, entry_line, frame_line, frame_text, front_text, head_text, text_of};
ghost use Rattle.vg_journal.specs.declared.printer.PrintError.TheVariants.{Memory, Fault};

use crate::journal::Journal;
use crate::lines::{put_counts, put_entry, put_frame, put_head};
use std::alloc::{AllocError, Global};
use vg_io::{Failed, Sink, write_all};
use vg_machine::{Entry, Frame, History, Setup};
use vg_shared_bytes::Strips;
use vg_text::{Log, Packed, Spelling};

/// How many bytes are handed on at once, or a multiple of that.
const PIECE: usize = 65_536;

/// Why a text was not printed whole.
#[derive(Clone, Copy)]
pub(crate) enum PrintError {
    /// There was no memory for the buffer.
    Memory,
    /// A write failed.
    Fault,
}

impl From<AllocError> for PrintError {
    ghost from_gives = { λ _ e. e ≡ Memory };

    fn from(_e: AllocError) -> PrintError {
        PrintError::Memory
    }
}

impl From<Failed> for PrintError {
    ghost from_gives = { λ _ e. e ≡ Fault };

    fn from(_e: Failed) -> PrintError {
        PrintError::Fault
    }
}

// Hands on all that the buffer has.
fn hand_on<K: Sink>(sink: &mut K, buffer: &mut Vec<u8>) -> Result<(), Failed>
    ensures ok { OnOk result (Takes (K.held sink.old) (K.held sink.new) buffer.old.items) }
    ensures empty { OnOk result (buffer.new.items ≡ []) }
    ensures failed { OnErr result (TakesSome (K.held sink.old) (K.held sink.new) buffer.old.items) }
    ensures cause { OnErr result (Rose (K.faults sink.old) (K.faults sink.new)) }
    ensures same { OnOk result (K.faults sink.new ≡ K.faults sink.old) }
    ensures count { K.faults sink.old ≤ K.faults sink.new }
{
    write_all(sink, buffer.as_slice())?;
    buffer.clear();
    Ok(())
}

// Hands on what the buffer has in whole pieces. So a piece begins at a multiple of its length in a file, where a write is cheaper.
#[tactic(auto, using(crate::proofs::PrintingLemmas::printed_front))]
fn hand_on_piece<K: Sink>(sink: &mut K, buffer: &mut Vec<u8>) -> Result<(), Failed>
    ensures ok { OnOk result (
        Printed (K.held sink.old) (K.held sink.new) buffer.old.items buffer.new.items) }
    ensures small { OnOk result (length buffer.new.items < 65536) }
    ensures failed { OnErr result (TakesSome (K.held sink.old) (K.held sink.new) buffer.old.items) }
    ensures cause { OnErr result (Rose (K.faults sink.old) (K.faults sink.new)) }
    ensures same { OnOk result (K.faults sink.new ≡ K.faults sink.old) }
    ensures count { K.faults sink.old ≤ K.faults sink.new }
{
    let rest = buffer.len() % PIECE;
    let whole = buffer.len() - rest;
    if whole == 0 {
        return Ok(());
    }
    write_all(sink, front_of(buffer.as_slice(), whole))?;
    buffer.copy_within(whole.., 0);
    buffer.truncate(rest);
    Ok(())
}

// The first bytes, so many.
fn front_of(bytes: &[u8], count: usize) -> &[u8]
    requires { count ≤ length bytes.now }
    ensures { result.now ≡ take count bytes.now }
{
    &bytes[..count]
}

// Adds bytes as they are.
fn put(out: &mut Vec<u8>, bytes: &[u8]) -> Result<(), AllocError>
    ensures { OnOk result (out.new.items ≡ out.old.items ++ bytes.now) }
{
    out.extend_from_slice(bytes)
}

// A packed text goes to the sink as it reads, through the buffer.
fn print_spelling<K: Sink>(
    sink: &mut K,
    buffer: &mut Vec<u8>,
    mut text: Spelling<'_>,
) -> Result<(), PrintError>
    ensures ok { OnOk result (
        Printed (K.held sink.old) (K.held sink.new)
        (buffer.old.items ++ text.entry) buffer.new.items) }
    ensures some { OnErr result (
        PrintedSome (K.held sink.old) (K.held sink.new) (buffer.old.items ++ text.entry)) }
    ensures cause { IsErrOf result PrintError.Fault → Rose (K.faults sink.old) (K.faults sink.new) }
    ensures same { OnOk result (K.faults sink.new ≡ K.faults sink.old) }
    ensures same_memory { IsErrOf result PrintError.Memory → K.faults sink.new ≡ K.faults sink.old }
    ensures count { K.faults sink.old ≤ K.faults sink.new }
{
    while !text.is_done() {
        text.put_next(buffer)?;
        hand_on_piece(sink, buffer)?;
    }
    Ok(())
}

// Packed text in pieces goes to the sink as it reads.
fn print_log<K: Sink>(sink: &mut K, buffer: &mut Vec<u8>, text: &Log) -> Result<(), PrintError>
    ensures ok { OnOk result (
        Printed (K.held sink.old) (K.held sink.new) (buffer.old.items ++ text.now) buffer.new.items) }
    ensures some { OnErr result (
        PrintedSome (K.held sink.old) (K.held sink.new) (buffer.old.items ++ text.now)) }
    ensures cause { IsErrOf result PrintError.Fault → Rose (K.faults sink.old) (K.faults sink.new) }
    ensures same { OnOk result (K.faults sink.new ≡ K.faults sink.old) }
    ensures same_memory { IsErrOf result PrintError.Memory → K.faults sink.new ≡ K.faults sink.old }
    ensures count { K.faults sink.old ≤ K.faults sink.new }
{
    let (pieces, last) = text.pieces();
    print_pieces(sink, buffer, pieces)?;
    print_spelling(sink, buffer, last.spelling())
}

fn print_pieces<K: Sink>(
    sink: &mut K,
    buffer: &mut Vec<u8>,
    pieces: &[Packed],
) -> Result<(), PrintError>
    ensures ok { OnOk result (
        Printed (K.held sink.old) (K.held sink.new) (buffer.old.items ++ concat pieces.now) buffer.new.items) }
    ensures some { OnErr result (
        PrintedSome (K.held sink.old) (K.held sink.new) (buffer.old.items ++ concat pieces.now)) }
    ensures cause { IsErrOf result PrintError.Fault → Rose (K.faults sink.old) (K.faults sink.new) }
    ensures same { OnOk result (K.faults sink.new ≡ K.faults sink.old) }
    ensures same_memory { IsErrOf result PrintError.Memory → K.faults sink.new ≡ K.faults sink.old }
    ensures count { K.faults sink.old ≤ K.faults sink.new }
{
    for piece in pieces {
        print_spelling(sink, buffer, piece.spelling())?;
    }
    Ok(())
}

// The lines before the entries.
fn print_head<K: Sink>(
    sink: &mut K,
    buffer: &mut Vec<u8>,
    line: &mut Packed,
    setup: &Setup,
) -> Result<(), PrintError>
    ensures ok { OnOk result (
        Printed (K.held sink.old) (K.held sink.new)
        (buffer.old.items ++ head_text setup.now) buffer.new.items) }
    ensures some { OnErr result (
        PrintedSome (K.held sink.old) (K.held sink.new) (buffer.old.items ++ head_text setup.now)) }
    ensures cause { IsErrOf result PrintError.Fault → Rose (K.faults sink.old) (K.faults sink.new) }
    ensures same { OnOk result (K.faults sink.new ≡ K.faults sink.old) }
    ensures same_memory { IsErrOf result PrintError.Memory → K.faults sink.new ≡ K.faults sink.old }
    ensures count { K.faults sink.old ≤ K.faults sink.new }
{
    line.clear();
    put_head(line, setup)?;
    print_spelling(sink, buffer, line.spelling())
}

// The line of one entry.
fn print_entry<K: Sink>(
    sink: &mut K,
    buffer: &mut Vec<u8>,
    line: &mut Packed,
    number: u64,
    entry: &Entry,
) -> Result<(), PrintError>
    ensures ok { OnOk result (
        Printed (K.held sink.old) (K.held sink.new)
        (buffer.old.items ++ entry_line number entry.now) buffer.new.items) }
    ensures some { OnErr result (
        PrintedSome (K.held sink.old) (K.held sink.new)
        (buffer.old.items ++ entry_line number entry.now)) }
    ensures cause { IsErrOf result PrintError.Fault → Rose (K.faults sink.old) (K.faults sink.new) }
    ensures same { OnOk result (K.faults sink.new ≡ K.faults sink.old) }
    ensures same_memory { IsErrOf result PrintError.Memory → K.faults sink.new ≡ K.faults sink.old }
    ensures count { K.faults sink.old ≤ K.faults sink.new }
{
    line.clear();
    put_entry(line, number, entry)?;
    print_spelling(sink, buffer, line.spelling())
}

// The lines of entries that are held whole, behind so many.
fn print_whole<K: Sink>(
    sink: &mut K,
    buffer: &mut Vec<u8>,
    line: &mut Packed,
    before: usize,
    entries: &[Entry],
) -> Result<(), PrintError>
    requires { before + length entries.now < 2 ^ 64 }
    ensures ok { OnOk result (
        Printed (K.held sink.old) (K.held sink.new)
        (buffer.old.items ++ numbered entry_line (before + 1) entries.now) buffer.new.items) }
    ensures some { OnErr result (
        PrintedSome (K.held sink.old) (K.held sink.new)
        (buffer.old.items ++ numbered entry_line (before + 1) entries.now)) }
    ensures cause { IsErrOf result PrintError.Fault → Rose (K.faults sink.old) (K.faults sink.new) }
    ensures same { OnOk result (K.faults sink.new ≡ K.faults sink.old) }
    ensures same_memory { IsErrOf result PrintError.Memory → K.faults sink.new ≡ K.faults sink.old }
    ensures count { K.faults sink.old ≤ K.faults sink.new }
{
    for (at, entry) in entries.iter().enumerate() {
        print_entry(sink, buffer, line, before as u64 + at as u64 + 1, entry)?;
    }
    Ok(())
}

// The lines of a history: those that are held as such, and those of what is held whole.
fn print_entries<K: Sink>(
    sink: &mut K,
    buffer: &mut Vec<u8>,
    line: &mut Packed,
    entries: &History,
) -> Result<(), PrintError>
    ensures ok { OnOk result (
        Printed (K.held sink.old) (K.held sink.new)
        (buffer.old.items ++ numbered entry_line 1 entries.now) buffer.new.items) }
    ensures some { OnErr result (
        PrintedSome (K.held sink.old) (K.held sink.new)
        (buffer.old.items ++ numbered entry_line 1 entries.now)) }
    ensures cause { IsErrOf result PrintError.Fault → Rose (K.faults sink.old) (K.faults sink.new) }
    ensures same { OnOk result (K.faults sink.new ≡ K.faults sink.old) }
    ensures same_memory { IsErrOf result PrintError.Memory → K.faults sink.new ≡ K.faults sink.old }
    ensures count { K.faults sink.old ≤ K.faults sink.new }
{
    let (lines, whole) = entries.parts();
    print_log(sink, buffer, lines)?;
    print_whole(sink, buffer, line, entries.len() - whole.len(), whole)
}

// The lines that count the commands of each queue, and the frames.
fn print_counts<K: Sink>(
    sink: &mut K,
    buffer: &mut Vec<u8>,
    line: &mut Packed,
    journal: &Journal,
) -> Result<(), PrintError>
    ensures ok { OnOk result (
        Printed (K.held sink.old) (K.held sink.new)
        (buffer.old.items ++ counts_text journal.now.control journal.now.cursor (length journal.now.frames)) buffer.new.items) }
    ensures some { OnErr result (
        PrintedSome (K.held sink.old) (K.held sink.new)
        (buffer.old.items ++ counts_text journal.now.control journal.now.cursor (length journal.now.frames))) }
    ensures cause { IsErrOf result PrintError.Fault → Rose (K.faults sink.old) (K.faults sink.new) }
    ensures same { OnOk result (K.faults sink.new ≡ K.faults sink.old) }
    ensures same_memory { IsErrOf result PrintError.Memory → K.faults sink.new ≡ K.faults sink.old }
    ensures count { K.faults sink.old ≤ K.faults sink.new }
{
    line.clear();
    put_counts(
        line,
        journal.control,
        journal.cursor,
        journal.frames.len() as u64,
    )?;
    print_spelling(sink, buffer, line.spelling())
}

// Bytes go to the sink through the buffer.
fn print_bytes<K: Sink>(sink: &mut K, buffer: &mut Vec<u8>, bytes: &[u8]) -> Result<(), PrintError>
    ensures ok { OnOk result (
        Printed (K.held sink.old) (K.held sink.new)
        (buffer.old.items ++ bytes.now) buffer.new.items) }
    ensures some { OnErr result (
        PrintedSome (K.held sink.old) (K.held sink.new) (buffer.old.items ++ bytes.now)) }
    ensures cause { IsErrOf result PrintError.Fault → Rose (K.faults sink.old) (K.faults sink.new) }
    ensures same { OnOk result (K.faults sink.new ≡ K.faults sink.old) }
    ensures same_memory { IsErrOf result PrintError.Memory → K.faults sink.new ≡ K.faults sink.old }
    ensures count { K.faults sink.old ≤ K.faults sink.new }
{
    put(buffer, bytes)?;
    hand_on_piece(sink, buffer)?;
    Ok(())
}

// The pixels of a frame, strip by strip.
fn print_pixels<K: Sink>(
    sink: &mut K,
    buffer: &mut Vec<u8>,
    pixels: &Strips,
) -> Result<(), PrintError>
    ensures ok { OnOk result (
        Printed (K.held sink.old) (K.held sink.new)
        (buffer.old.items ++ pixels.now) buffer.new.items) }
    ensures some { OnErr result (
        PrintedSome (K.held sink.old) (K.held sink.new) (buffer.old.items ++ pixels.now)) }
    ensures cause { IsErrOf result PrintError.Fault → Rose (K.faults sink.old) (K.faults sink.new) }
    ensures same { OnOk result (K.faults sink.new ≡ K.faults sink.old) }
    ensures same_memory { IsErrOf result PrintError.Memory → K.faults sink.new ≡ K.faults sink.old }
    ensures count { K.faults sink.old ≤ K.faults sink.new }
{
    let mut at = 0;
    while at < pixels.len() {
        let piece = pixels.piece(at);
        print_bytes(sink, buffer, piece)?;
        at += piece.len();
    }
    Ok(())
}

// The line in front of the pixels of a frame.
fn print_frame_line<K: Sink>(
    sink: &mut K,
    buffer: &mut Vec<u8>,
    line: &mut Packed,
    number: u64,
    frame: &Frame,
) -> Result<(), PrintError>
    ensures ok { OnOk result (
        Printed (K.held sink.old) (K.held sink.new)
        (buffer.old.items ++ frame_line number frame.now) buffer.new.items) }
    ensures some { OnErr result (
        PrintedSome (K.held sink.old) (K.held sink.new)
        (buffer.old.items ++ frame_line number frame.now)) }
    ensures cause { IsErrOf result PrintError.Fault → Rose (K.faults sink.old) (K.faults sink.new) }
    ensures same { OnOk result (K.faults sink.new ≡ K.faults sink.old) }
    ensures same_memory { IsErrOf result PrintError.Memory → K.faults sink.new ≡ K.faults sink.old }
    ensures count { K.faults sink.old ≤ K.faults sink.new }
{
    line.clear();
    put_frame(line, number, frame)?;
    print_spelling(sink, buffer, line.spelling())
}

// A frame: its line, its pixels, and a line end.
fn print_frame<K: Sink>(
    sink: &mut K,
    buffer: &mut Vec<u8>,
    line: &mut Packed,
    number: u64,
    frame: &Frame,
) -> Result<(), PrintError>
    ensures ok { OnOk result (
        Printed (K.held sink.old) (K.held sink.new)
        (buffer.old.items ++ frame_text number frame.now) buffer.new.items) }
    ensures some { OnErr result (
        PrintedSome (K.held sink.old) (K.held sink.new)
        (buffer.old.items ++ frame_text number frame.now)) }
    ensures cause { IsErrOf result PrintError.Fault → Rose (K.faults sink.old) (K.faults sink.new) }
    ensures same { OnOk result (K.faults sink.new ≡ K.faults sink.old) }
    ensures same_memory { IsErrOf result PrintError.Memory → K.faults sink.new ≡ K.faults sink.old }
    ensures count { K.faults sink.old ≤ K.faults sink.new }
{
    print_frame_line(sink, buffer, line, number, frame)?;
    print_pixels(sink, buffer, &frame.pixels)?;
    put(buffer, b"\n")?;
    Ok(())
}

// All frames.
fn print_frames<K: Sink>(
    sink: &mut K,
    buffer: &mut Vec<u8>,
    line: &mut Packed,
    frames: &[Frame],
) -> Result<(), PrintError>
    ensures ok { OnOk result (
        Printed (K.held sink.old) (K.held sink.new)
        (buffer.old.items ++ numbered frame_text 1 frames.now) buffer.new.items) }
    ensures some { OnErr result (
        PrintedSome (K.held sink.old) (K.held sink.new)
        (buffer.old.items ++ numbered frame_text 1 frames.now)) }
    ensures cause { IsErrOf result PrintError.Fault → Rose (K.faults sink.old) (K.faults sink.new) }
    ensures same { OnOk result (K.faults sink.new ≡ K.faults sink.old) }
    ensures same_memory { IsErrOf result PrintError.Memory → K.faults sink.new ≡ K.faults sink.old }
    ensures count { K.faults sink.old ≤ K.faults sink.new }
{
    for (at, frame) in frames.iter().enumerate() {
        print_frame(sink, buffer, line, at as u64 + 1, frame)?;
    }
    Ok(())
}

// All of the text in front of its last line.
fn print_front<K: Sink>(
    alloc: Global,
    sink: &mut K,
    buffer: &mut Vec<u8>,
    journal: &Journal,
) -> Result<(), PrintError>
    requires { buffer.old.items ≡ [] }
    ensures ok { OnOk result (Printed (K.held sink.old) (K.held sink.new) (front_text journal.now) buffer.new.items) }
    ensures some { OnErr result (
        PrintedSome (K.held sink.old) (K.held sink.new) (front_text journal.now)) }
    ensures cause { IsErrOf result PrintError.Fault → Rose (K.faults sink.old) (K.faults sink.new) }
    ensures same { OnOk result (K.faults sink.new ≡ K.faults sink.old) }
    ensures same_memory { IsErrOf result PrintError.Memory → K.faults sink.new ≡ K.faults sink.old }
    ensures count { K.faults sink.old ≤ K.faults sink.new }
{
    let mut line = Packed::new(alloc);
    print_head(sink, buffer, &mut line, &journal.setup)?;
    print_entries(sink, buffer, &mut line, &journal.entries)?;
    print_counts(sink, buffer, &mut line, journal)?;
    print_frames(sink, buffer, &mut line, journal.frames.as_slice())
}

/// Writes all of the journal's text. Where it fails, a front of the text is written; for want of memory never all of it.
pub(crate) fn print_text<K: Sink>(
    alloc: Global,
    sink: &mut K,
    journal: &Journal,
) -> Result<(), PrintError>
    ensures ok { OnOk result (Takes (K.held sink.old) (K.held sink.new) (text_of journal.now)) }
    ensures some { OnErr result (
        PrintedSome (K.held sink.old) (K.held sink.new) (text_of journal.now)) }
    ensures part { IsErrOf result PrintError.Memory → TakesPart (K.held sink.old) (K.held sink.new) (text_of journal.now) }
    ensures cause { IsErrOf result PrintError.Fault → Rose (K.faults sink.old) (K.faults sink.new) }
    ensures same { OnOk result (K.faults sink.new ≡ K.faults sink.old) }
    ensures same_memory { IsErrOf result PrintError.Memory → K.faults sink.new ≡ K.faults sink.old }
    ensures count { K.faults sink.old ≤ K.faults sink.new }
{
    let mut buffer = Vec::new(alloc);
    print_front(alloc, sink, &mut buffer, journal)?;
    put(&mut buffer, b"end\n")?;
    hand_on(sink, &mut buffer)?;
    Ok(())
}
