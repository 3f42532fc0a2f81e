//! A history, held as its lines.

ghost use Rattle.std.specs.Prelude.{◌≡◌, ◌<◌, ◌≤◌, ◌+◌, ◌-◌, ◌^◌, List, [], ◌∷◌, ◌++◌, length, count_by, if◌then◌else◌, OnOk, OnErr, vec_len, vec_capacity};
ghost use Rattle.vg_text.specs.Text.{numbered};
ghost use Rattle.vg_history.specs.declared.entry.Entry.{Entry};
ghost use Rattle.vg_history.specs.Lines.{entry_line, is_on_first, is_on_second};

use crate::entry::Entry;
use crate::machine::Machine;
use crate::spelled::Lines;
use std::alloc::{AllocError, Global};
use std::marker::Model;
use vg_text::Log;

/// The most entries that a history has.
pub(crate) const MOST: usize = 2147483647;

/// A history of a machine, held as the lines of its entries in a journal, packed. A clause sees it as the list of its entries.
///
/// Where there is no memory for a line, the entry is held whole, and so are all behind it: what a machine has done can't be
/// undone.
#[derive(Drop)]
pub struct History<M: Machine> {
    pub(crate) lines: Lines<M>,
    pub(crate) whole: Vec<Entry<M>>,
    // How many of its commands are on the first queue, and on the second.
    pub(crate) first: u64,
    pub(crate) second: u64,
}

impl<M: Machine> Model for History<M> {
    ghost use Rattle.std.specs.Prelude.{◌≡◌, ◌≤◌, ◌-◌, ◌^◌, List, ◌++◌, length, count_by};
    ghost use Rattle.vg_history.specs.declared.entry.Entry.{Entry};
    ghost use Rattle.vg_history.specs.Lines.{is_on_first, is_on_second};

    ghost Value = { List (Entry M M.State M.Act M.ActReply M.Request M.Reply M.Holds M.Job) };

    ghost view = { λ h. h.lines ++ h.whole.items };

    ghost invariant = { λ h. (length (h.lines ++ h.whole.items) ≤ 2 ^ 31 - 1) × (h.first ≡ count_by (is_on_first M.Machine) (h.lines ++ h.whole.items)) × (h.second ≡ count_by (is_on_second M.Machine) (h.lines ++ h.whole.items)) };
}

impl<M: Machine> History<M> {
    /// A history with no entry.
    pub fn new(alloc: Global) -> History<M>
        ensures { result ≡ [] }
    {
        History {
            lines: Lines::new(alloc),
            whole: Vec::new(alloc),
            first: 0,
            second: 0,
        }
    }

    /// How many entries it has.
    pub fn len(&self) -> usize
        ensures { result ≡ length self.now }
    {
        self.lines.len() + self.whole.len()
    }

    /// How many of its commands are on the machine's first queue, and on its second.
    pub fn counts(&self) -> (u64, u64)
        ensures { (result.0 ≡ count_by (is_on_first M.Machine) self.now) × (result.1 ≡ count_by (is_on_second M.Machine) self.now) }
    {
        (self.first, self.second)
    }

    /// Enters what was done elsewhere. For want of memory, or of room, nothing changes.
    pub fn push(&mut self, entry: Entry<M>) -> Result<(), AllocError>
        ensures ok { OnOk result (self.new ≡ self.old ++ entry ∷ []) }
        ensures err { OnErr result (self.new ≡ self.old) }
    {
        if self.len() >= MOST {
            return Err(AllocError);
        }
        self.whole.reserve(1)?;
        let (first, second) = counts_of(&entry);
        enter(&mut self.lines, &mut self.whole, entry);
        self.first += first;
        self.second += second;
        Ok(())
    }

    /// The lines of its first entries, and the entries behind them.
    pub fn parts(&self) -> (&Log, &[Entry<M>])
        ensures { (es : List (Entry M M.State M.Act M.ActReply M.Request M.Reply M.Holds M.Job)) × (result.0.now ≡ numbered (entry_line M.Machine) 1 es) × (es ++ result.1.now ≡ self.now) }
    {
        (self.lines.text(), self.whole.as_slice())
    }
}

/// Enters an entry behind lines and whole entries: as its line, where nothing stands whole and there is memory.
pub(crate) fn enter<M: Machine>(lines: &mut Lines<M>, whole: &mut Vec<Entry<M>>, entry: Entry<M>)
    requires room { vec_len whole.old < vec_capacity whole.old }
    requires count { length (lines.old ++ whole.old.items) < 2 ^ 31 - 1 }
    ensures entries { lines.new ++ whole.new.items ≡ (lines.old ++ whole.old.items) ++ entry ∷ [] }
    ensures len { vec_len whole.new ≤ vec_len whole.old + 1 }
    ensures capacity { vec_capacity whole.old ≤ vec_capacity whole.new }
{
    if whole.is_empty() && lines.add(&entry).is_ok() {
        return;
    }
    whole.push_reserved(entry);
}

/// How many commands an entry is on the machine's first queue, and on its second.
pub(crate) fn counts_of<M: Machine>(entry: &Entry<M>) -> (u64, u64)
    ensures first { result.0 ≡ (if is_on_first M.Machine entry.now then 1 else 0) }
    ensures second { result.1 ≡ (if is_on_second M.Machine entry.now then 1 else 0) }
{
    match entry {
        Entry::Act { .. } => (0, 0),
        Entry::Command { request, .. } => { if M::by_first(request) { (1, 0) } else { (0, 1) } }
    }
}
