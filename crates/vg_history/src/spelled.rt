//! The lines of a history's entries.

ghost use Rattle.std.specs.Prelude.{◌≡◌, [], ◌∷◌, ◌++◌, ◌<◌, ◌-◌, ◌^◌, length, OnOk, OnErr};
ghost use Rattle.vg_list.specs.Front.{HasFront};
ghost use Rattle.vg_text.specs.Text.{numbered};
ghost use Rattle.vg_history.specs.Lines.{entry_line};

use crate::entry::Entry;
use crate::listed::Listed;
use crate::machine::Machine;
use std::alloc::{AllocError, Global};
use std::marker::Model;
use vg_text::{Log, Packed};

/// The lines of the first entries of a history. A clause sees them as the list of these entries.
#[derive(Drop)]
pub(crate) struct Lines<M: Machine> {
    text: Log,
    // How many they are.
    count: usize,
    // Where the next line is spelled.
    line: Packed,
    entries: Listed<Entry<M>>,
}

impl<M: Machine> Model for Lines<M> {
    ghost use Rattle.std.specs.Prelude.{◌≡◌, List, length};
    ghost use Rattle.vg_text.specs.Text.{numbered};
    ghost use Rattle.vg_history.specs.declared.entry.Entry.{Entry};
    ghost use Rattle.vg_history.specs.Lines.{entry_line};

    ghost Value = { List (Entry M M.State M.Act M.ActReply M.Request M.Reply M.Holds M.Job) };

    ghost view = { λ l. l.entries.items };

    ghost invariant = { λ l. (l.text ≡ numbered (entry_line M.Machine) 1 l.entries.items) × (l.count ≡ length l.entries.items) };
}

impl<M: Machine> Lines<M> {
    /// No lines.
    pub(crate) fn new(alloc: Global) -> Lines<M>
        ensures { result ≡ [] }
    {
        Lines {
            text: Log::new(alloc),
            count: 0,
            line: Packed::new(alloc),
            entries: Listed::new(),
        }
    }

    /// How many they are.
    pub(crate) fn len(&self) -> usize
        ensures { result ≡ length self.now }
    {
        self.count
    }

    /// Their text.
    pub(crate) fn text(&self) -> &Log
        ensures { result.now ≡ numbered (entry_line M.Machine) 1 self.now }
    {
        &self.text
    }

    /// Adds the line of an entry. For want of memory nothing changes.
    pub(crate) fn add(&mut self, entry: &Entry<M>) -> Result<(), AllocError>
        requires { length self.old < 2 ^ 31 - 1 }
        ensures ok { OnOk result (self.new ≡ self.old ++ entry.now ∷ []) }
        ensures err { OnErr result (self.new ≡ self.old) }
    {
        self.line.clear();
        put_line(&mut self.line, self.count as u64 + 1, entry)?;
        self.text.append(&self.line)?;
        self.count += 1;
        self.entries = self.entries.and(entry);
        Ok(())
    }
}

/// Adds the line of the entry with this number. For want of memory a front of it is added.
#[tactic(auto, unfolding(crate::specs::Lines::entry_line), using(vg_list::proofs::FrontLemmas::fronts))]
pub fn put_line<M: Machine>(
    out: &mut Packed,
    number: u64,
    entry: &Entry<M>,
) -> Result<(), AllocError>
    ensures ok { OnOk result (out.new ≡ out.old ++ entry_line M.Machine number entry.now) }
    ensures err { OnErr result (HasFront out.old out.new (entry_line M.Machine number entry.now)) }
{
    match entry {
        Entry::Act {
            client,
            call,
            act,
            reply,
        } => {
            out.put_three(number, u64::from(*client), *call)?;
            M::put_act(out, act, reply)
        }
        Entry::Command {
            client,
            call,
            request,
            reply,
        } => {
            out.put_three(number, u64::from(*client), *call)?;
            M::put_command(out, request, reply)
        }
    }
}
