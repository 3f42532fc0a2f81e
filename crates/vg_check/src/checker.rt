//! The entries of a journal, gone over one after another.

ghost use Rattle.std.specs.Prelude.{◌≡◌, ◌≤◌, ◌<◌, ◌-◌, ◌^◌, ◌↔◌, List, [], true, false, count_by, length, IfOk, IsTrue};
ghost use Rattle.std.specs.List.{list_all};
ghost use Rattle.vg_check.specs.Checked.{HasChecked, TellsRight, TellsWrong, entries_of};
ghost use Rattle.vg_check.specs.Right.{HasLeftAll, frames_after};
ghost use Rattle.vg_check.specs.StepWithin.{AreNew, FailsAct, FailsCommand, KeepsAct, KeepsCommand, is_gone};
ghost use Rattle.vg_client_holds.specs.declared.setup.Setup.{Setup};
ghost use Rattle.vg_client_holds.specs.Setup.{IsSetup, parties};
ghost use Rattle.vg_history.specs.Lines.{is_on_first, is_on_second};
ghost use Rattle.vg_machine.specs.Entries.{Entry};
ghost use Rattle.vg_machine.specs.Order.{call_of, client_of};
ghost use Rattle.vg_machine.specs.Replay.{display};

use crate::counts::{put_number, zeros};
use crate::plugs::{is_met, keep_plug};
use crate::seen::Seen;
use crate::step::{check_act, check_command};
use std::alloc::{AllocError, Global};
use std::collections::BTreeSet;
use vg_call_numbers::{entries_have_all_numbers, entries_have_no_such_number, entries_use_numbers};
use vg_machine::{Act, ActReply, Device, Entry, Frame, Reply, Request, Setup, parties};

/// What is kept of the entries of a journal that were gone over. An entry that isn't right, or want of memory, is the end of it.
#[derive(Drop)]
pub struct Checker {
    display: Device,
    /// How many commands came on the control queue, and how many on the cursor queue.
    control: u64,
    cursor: u64,
    /// How many commands came on each lane.
    lanes: Vec<u64>,
    /// The numbers of the acts with which displays were plugged or unplugged.
    plugs: BTreeSet<u64>,
    /// By the client's number less one; the host's is the last.
    clients: Vec<Seen>,
}

impl Checker {
    /// There are no entries yet.
    pub fn new(alloc: Global, setup: &Setup) -> Result<Checker, AllocError>
        requires { IsSetup setup.now }
        ensures { IfOk result (HasChecked setup.now []) }
    {
        entries_use_numbers();
        Ok(Checker {
            display: Device::new(alloc, setup)?,
            lanes: zeros(alloc)?,
            plugs: BTreeSet::new(alloc),
            clients: unseen(alloc, setup)?,
            control: 0,
            cursor: 0,
        })
    }

    /// How many entries were gone over.
    pub fn entries(&self) -> u64
        ensures value { result ≡ entries_of self.now }
        ensures all { (setup : Setup) (H : List Entry) → HasChecked setup H self.now → result ≡ length H }
    {
        self.display.entries()
    }

    /// The frames that the display has made, in the order in which they were made.
    pub fn frames(&self) -> &[Frame]
        ensures { (setup : Setup) (H : List Entry) → HasChecked setup H self.now → result.now ≡ frames_after setup H }
    {
        self.display.frames()
    }

    /// How many commands came on the control queue.
    pub fn control(&self) -> u64
        ensures { (setup : Setup) (H : List Entry) → HasChecked setup H self.now → result ≡ count_by (is_on_first display) H }
    {
        self.control
    }

    /// How many commands came on the cursor queue.
    pub fn cursor(&self) -> u64
        ensures { (setup : Setup) (H : List Entry) → HasChecked setup H self.now → result ≡ count_by (is_on_second display) H }
    {
        self.cursor
    }

    /// Whether each client that has an entry, and the host, has left.
    pub fn have_left(&self) -> bool
        ensures { (setup : Setup) (H : List Entry) → HasChecked setup H self.now → IsTrue result ↔ HasLeftAll (parties setup.clients setup.host) H }
    {
        are_gone(self.clients.as_slice())
    }

    /// Goes over the next entry, and says whether it stands rightly behind those before it.
    pub fn next(&mut self, alloc: Global, entry: &Entry) -> Result<bool, AllocError>
        requires entries { entries_of self.old < 2 ^ 31 - 1 }
        requires client { 1 ≤ client_of entry.now }
        requires call { call_of entry.now < 2 ^ 63 }
        ensures right { IfOk result (λ right. right ≡ true → TellsRight self.old entry.now self.new) }
        ensures wrong { IfOk result (λ right. right ≡ false → TellsWrong self.old entry.now) }
    {
        entries_use_numbers();
        entries_have_no_such_number();
        entries_have_all_numbers();
        match entry {
            Entry::Act {
                client,
                call,
                act,
                reply,
            } => self.next_act(alloc, *client, *call, act, reply),
            Entry::Command {
                client,
                call,
                request,
                reply,
            } => self.next_command(alloc, *client, *call, request, reply),
        }
    }

    fn next_act(
        &mut self,
        alloc: Global,
        client: u32,
        call: u64,
        act: &Act,
        reply: &ActReply,
    ) -> Result<bool, AllocError>
        requires entries { entries_of self.old < 2 ^ 31 - 1 }
        requires client { 1 ≤ client }
        requires call { call < 2 ^ 63 }
        ensures right { IfOk result (λ right. right ≡ true → KeepsAct self.old client call act.now reply.now self.new) }
        ensures wrong { IfOk result (λ right. right ≡ false → FailsAct self.old client call act.now reply.now) }
    {
        let lanes = self.lanes.as_slice();
        let Some(seen) = self.clients.get_mut(client as usize - 1) else {
            return Ok(false);
        };
        if !is_met(&self.plugs, act) {
            return Ok(false);
        }
        let display = &mut self.display;
        if !check_act(alloc, display, lanes, seen, client, call, act, reply)? {
            return Ok(false);
        }
        keep_plug(&mut self.plugs, call, act)?;
        Ok(true)
    }

    fn next_command(
        &mut self,
        alloc: Global,
        client: u32,
        call: u64,
        request: &Request,
        reply: &Reply,
    ) -> Result<bool, AllocError>
        requires entries { entries_of self.old < 2 ^ 31 - 1 }
        requires client { 1 ≤ client }
        requires call { call < 2 ^ 63 }
        ensures right { IfOk result (λ right. right ≡ true → KeepsCommand self.old client call request.now reply.now self.new) }
        ensures wrong { IfOk result (λ right. right ≡ false → FailsCommand self.old client call request.now reply.now) }
    {
        let lanes = self.lanes.as_slice();
        let Some(seen) = self.clients.get_mut(client as usize - 1) else {
            return Ok(false);
        };
        if !check_command(alloc, &mut self.display, lanes, seen, call, request, reply)? {
            return Ok(false);
        }
        put_number(&mut self.lanes, request.lane, request.ordinal);
        if request.queue.is_control() {
            self.control = self.control.saturating_add(1);
        } else {
            self.cursor = self.cursor.saturating_add(1);
        }
        Ok(true)
    }
}

/// Whether each client has left or has no entry.
fn are_gone(clients: &[Seen]) -> bool
    ensures { result ≡ list_all is_gone clients.now }
{
    clients.iter().all(|seen| seen.is_gone())
}

/// Nothing is kept yet of each client.
fn unseen(alloc: Global, setup: &Setup) -> Result<Vec<Seen>, AllocError>
    requires { IsSetup setup.now }
    ensures count { IfOk result (λ all. length all.items ≡ parties setup.now.clients setup.now.host) }
    ensures new { IfOk result (λ all. AreNew setup.now all.items) }
{
    let mut all = Vec::new(alloc);
    for place in 0..parties(setup.clients, setup.host) {
        all.push(Seen::new(alloc, setup, place + 1)?)?;
    }
    Ok(all)
}
