//! The entries of a journal, read from its text one after another.

ghost use Rattle.std.specs.Prelude.{◌≡◌, ℕ, List, [], IfOk};
ghost use Rattle.vg_machine.specs.Entries.{Entry as AnyEntry};
ghost use Rattle.vg_journal.specs.declared.journal.Journal.{Journal};
ghost use Rattle.vg_journal_lines.specs.Pieces.{JournalInRange};
ghost use Rattle.vg_judge.specs.Entries.{AreRead, HasGone, HasNext};
ghost use Rattle.vg_judge.specs.EntriesWithin.{StandsNext};
ghost use Rattle.vg_judge.specs.Outline.{IsOutline};

use crate::verdicts::Outline;
use std::alloc::{AllocError, Global};
use vg_journal_lines::{entries_and_their_words, read_entry};
use vg_line_words::put_parts;
use vg_machine::{Entry, parties};
use vg_script_words::cut;

/// How far the entries of a journal were read from its text. Nothing is kept of those that were.
#[derive(Drop)]
pub struct Entries<'a> {
    /// How many clients there are, the host among them.
    clients: u32,
    /// How many entries were read.
    read: u64,
    /// What stands behind them.
    rest: &'a [u8],
    /// Room for the words of a line.
    words: Vec<&'a [u8]>,
}

impl<'a> Entries<'a> {
    /// Before the first entry of the journal in these bytes.
    pub fn new(alloc: Global, bytes: &'a [u8], outline: &Outline) -> Entries<'a>
        requires { (journal : Journal) × JournalInRange journal × IsOutline bytes.now journal outline.now }
        ensures { (journal : Journal) → JournalInRange journal → IsOutline bytes.now journal outline.now → AreRead journal [] result }
    {
        Entries {
            clients: parties(outline.setup.clients, outline.setup.host),
            read: 0,
            rest: &bytes[outline.entries_at..],
            words: Vec::new(alloc),
        }
    }

    /// The next entry, of which there has to be one. It fails only for want of memory.
    pub fn next(&mut self, alloc: Global) -> Result<Entry, AllocError>
        requires { (journal : Journal) × (done : List AnyEntry) × HasNext journal done self.old }
        ensures { IfOk result (λ entry. (journal : Journal) (done : List AnyEntry) → HasNext journal done self.old
            → HasGone journal done entry self.new) }
    {
        let n = self.read + 1;
        let (entry, after) = entry_in_front(alloc, n, self.clients, &mut self.words, self.rest)?;
        self.rest = after;
        self.read = n;
        Ok(entry)
    }
}

/// Entry n, whose line stands in front of some bytes, and what stands behind it.
fn entry_in_front<'a>(
    alloc: Global,
    n: u64,
    clients: u32,
    words: &mut Vec<&'a [u8]>,
    bytes: &'a [u8],
) -> Result<(Entry, &'a [u8]), AllocError>
    requires { (entry : AnyEntry) × (more : List ℕ) × StandsNext n clients bytes.now entry more }
    ensures { IfOk result (λ read. (entry : AnyEntry) (more : List ℕ) → StandsNext n clients bytes.now entry more
        → (read.0 ≡ entry) × (read.1.now ≡ more)) }
{
    entries_and_their_words();
    let (line, after) = cut(bytes, b'\n');
    put_parts(words, line)?;
    let entry = read_entry(alloc, n, clients, words.as_slice())?.unwrap();
    Ok((entry, after))
}
