//! The device's end of a ring (VIRTIO 1.2, 2.7.6 and 2.7.8).

ghost use Rattle.std.specs.Prelude.{◌≡◌, ℕ, ◌+◌, ◌<◌, true, false, [], ◌∷◌, length, MatchOption, IfOk, OnOk, OnErr};
ghost use mathlib.Core.List.{IsPrefix};
ghost use Rattle.vg_cargo.specs.declared.entries.Entry.{Entry};
ghost use Rattle.vg_cargo.specs.Entries.{heads, weigh, entries, Has};
ghost use Rattle.vg_wire.specs.declared.request.Queue.{Queue};
ghost use Rattle.vg_split.specs.declared.views.View.TheVariants.{Device, Note};
ghost use Rattle.vg_split.specs.Plays.{fetched_of, reaped_of};
ghost use Rattle.vg_split.specs.Rule.{new_device};
ghost use Rattle.vg_ring.specs.Kept.{IsOnLine};
ghost use Rattle.vg_ring.specs.Making.{IsNewDevice};
ghost use Rattle.vg_cargo.specs.DeviceEnds.{HasAt, IsCargoOf, Fetches, FetchesNone, TakesIn, completing};
ghost use Rattle.vg_ring.specs.Tended.{IsTended};
ghost use Rattle.vg_cargo.specs.Walked.{IsWalkOf};

use crate::naming::Naming;
use crate::right::Right;
use std::alloc::{AllocError, Global};
use std::marker::{Model, PhantomData};
use std::sync::Arc;
use vg_cargo::{Cargo, Tag};
use vg_chain::{Chain, ChainFault, Descriptor, a_layout_is_walked, a_walk_has_one_result, walk};
use vg_history::Tagged;
use vg_split::{
    Line, Pass, cut_right, give_back, join_right, look_at_available, note_fetched, read_table,
    take_entry, take_reaped,
};

/// A cargo that was fetched, and the place of its head descriptor.
#[derive(Drop)]
pub struct Fetched<P: Tagged> {
    pub head: u16,
    pub cargo: Cargo<P>,
}

/// The end that fetches cargoes and gives them back.
#[derive(Drop)]
pub struct DeviceEnd<P: Tagged, N: Naming> {
    line: Arc<Line<P>>,
    pass: Pass<P>,
    size: u16,
    fetched: u64,
    completed: u64,
    /// The tag of the cargo of each head.
    tags: Vec<Tag>,
    /// The ring's descriptors as they were read last: a place to read them into.
    table: Vec<Descriptor>,
    of: PhantomData<N>,
}

impl<P: Tagged, N: Naming> Model for DeviceEnd<P, N> {
    ghost use Rattle.std.specs.Prelude.{◌≡◌, []};
    ghost use Rattle.vg_ring.specs.Kept.{IsOnLine};
    ghost use Rattle.vg_cargo.specs.DeviceEnds.{DeviceLists};
    ghost use Rattle.vg_ring.specs.Tended.{device_lists, IsTended};
    ghost use Rattle.vg_split.specs.Plays.{device_of, queue_of, resting_device};

    ghost Value = { DeviceLists };

    ghost view = { λ t. device_lists t.size (device_of t.pass.me.0) };

    ghost invariant = { λ t. IsOnLine N.ring t.line.value.shared.table_id t.pass.table_id t.line.value.shared.key (queue_of t.pass.me.0) t.size × (t.pass.me ≡ (resting_device t.pass.me.0, [])) × IsTended t.size (device_of t.pass.me.0) t.fetched t.completed t.tags.items };
}

impl<P: Tagged, N: Naming> DeviceEnd<P, N> {
    /// How many descriptors the ring has.
    pub fn size(&self) -> u16
        ensures { result ≡ self.now.size }
    {
        self.size
    }

    /// How many cargoes were fetched.
    pub fn fetched(&self) -> u64
        ensures { result ≡ length self.now.fetched }
    {
        self.fetched
    }

    /// How many cargoes were completed.
    pub fn completed(&self) -> u64
        ensures { result ≡ length self.now.completed }
    {
        self.completed
    }

    /// The next cargo. None where the available index that was loaded is the count.
    pub fn fetch(&mut self) -> Option<Fetched<P>>
        ensures { MatchOption result (FetchesNone self.old self.new) (λ f. Fetches P.is_wanted self.old f.head f.cargo self.new) }
    {
        let found = look_at_available(&self.line, &mut self.pass);
        if found == self.fetched % 65536 {
            return None;
        }
        let (head, cargo) = take_entry(&self.line, &mut self.pass, self.size, self.fetched);
        self.tags[head as usize] = cargo.tag();
        self.fetched += 1;
        Some(Fetched { head, cargo })
    }

    /// A right to the cargo of a head that was fetched, and that isn't completed nor lent.
    pub fn lend(&mut self, head: u16) -> Right<N>
        requires held { (e : Entry) × HasAt e head self.old.held }
        requires unlent { heads head self.old.lent ≡ 0 }
        ensures entry { HasAt result.entry head self.old.held }
        ensures only { (e : Entry) → HasAt e head self.old.held → result.entry ≡ e }
        ensures walked { result.walked ≡ false }
        ensures lent { self.new ≡ record self.old { lent = result.entry ∷ self.old.lent } }
    {
        let seat = cut_right(&self.line, &mut self.pass, head);
        Right::of(seat, head, self.tags[head as usize])
    }

    /// The chain of a cargo that is lent, or its fault, as its descriptors stand in the ring's words. The right is walked then,
    /// unless there was no memory.
    pub fn chain(
        &mut self,
        alloc: Global,
        right: &mut Right<N>,
        cargo: &Cargo<P>,
    ) -> Result<Result<Chain, ChainFault>, AllocError>
        requires lent { Has right.old.entry self.old.lent }
        requires cargo { IsCargoOf right.old.entry cargo.now }
        ensures chain { IfOk result (λ walked. IsWalkOf cargo.now.parcel walked) }
        ensures walked { OnOk result (right.new ≡ record right.old { walked = true }) }
        ensures err { OnErr result (right.new ≡ right.old) }
        ensures same { self.new ≡ self.old }
    {
        read_table(&mut self.table, &self.line, &mut self.pass, self.size)?;
        let walked = walk(alloc, self.table.as_slice(), right.head(), &cargo.parts())?;
        a_walk_has_one_result();
        a_layout_is_walked();
        right.set_walked();
        Ok(walked)
    }

    /// Takes a right in, which ends the loan.
    pub fn take_in(&mut self, right: Right<N>)
        ensures { TakesIn self.old right self.new }
    {
        join_right(&self.line, &mut self.pass, right.into_seat());
    }

    /// Gives back the cargo of a head that was fetched, and that isn't completed nor lent, with a pass that isn't wanted
    /// and the length of its response.
    pub fn complete(&mut self, head: u16, len: u32, cargo: Cargo<P>)
        requires entry { (e : Entry) × HasAt e head self.old.held × IsCargoOf e cargo }
        requires unlent { heads head self.old.lent ≡ 0 }
        requires len { length cargo.parcel.response ≡ len }
        requires done { P.is_wanted cargo.pass ≡ false }
        ensures { (e : Entry) → HasAt e head self.old.held → self.new ≡ completing self.old e len cargo }
    {
        give_back(
            &self.line,
            &mut self.pass,
            self.size,
            self.completed,
            head,
            len,
            cargo,
        );
        self.completed += 1;
    }

    /// A note of what was fetched.
    pub(crate) fn note(&mut self) -> Pass<P>
        ensures table { result.table_id ≡ N.ring }
        ensures note { result.me ≡ (Note self.old.fetched [], []) }
        ensures matched { (f : Entry → ℕ) → weigh f self.old.fetched ≡ weigh f (entries self.old.completed) + weigh f self.old.held }
        ensures same { self.new ≡ self.old }
    {
        note_fetched(&self.line, &mut self.pass)
    }

    /// Takes in a note of what came back.
    pub(crate) fn take_note(&mut self, note: Pass<P>)
        requires table { note.table_id ≡ N.ring }
        requires note { note.me ≡ (Note (fetched_of note.me.0) (reaped_of note.me.0), []) }
        ensures reaped { IsPrefix (reaped_of note.me.0) self.old.completed }
        ensures same { self.new ≡ self.old }
    {
        take_reaped(&self.line, &mut self.pass, note);
    }

    pub(crate) fn of(
        line: Arc<Line<P>>,
        pass: Pass<P>,
        size: u16,
        tags: Vec<Tag>,
    ) -> DeviceEnd<P, N>
        requires line { (queue : Queue) × IsOnLine N.ring line.value.shared.table_id pass.table_id line.value.shared.key queue size × (pass.me ≡ (Device (new_device queue), [])) × IsTended size (new_device queue) 0 0 tags.items }
        ensures { (queue : Queue) → pass.me ≡ (Device (new_device queue), []) → IsNewDevice queue size result }
    {
        let table = Vec::new(*tags.allocator());
        DeviceEnd {
            line,
            pass,
            size,
            fetched: 0,
            completed: 0,
            tags,
            table,
            of: PhantomData,
        }
    }
}
