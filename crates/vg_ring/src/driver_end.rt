//! The driver's end of a ring (VIRTIO 1.2, 2.7.13 and 2.7.14).

ghost use Rattle.std.specs.Prelude.{◌≡◌, ℕ, ◌+◌, ◌-◌, ◌^◌, ◌<◌, nat_le, true, [], length, MatchOption};
ghost use mathlib.Core.List.{IsPrefix};
ghost use Rattle.vg_chain.specs.Made.{IsCount, IsNeeded};
ghost use Rattle.vg_cargo.specs.Entries.{uses, spread, entries, lane_count};
ghost use Rattle.vg_split.specs.declared.views.View.TheVariants.{Driver, Note};
ghost use Rattle.vg_split.specs.Plays.{fetched_of, reaped_of};
ghost use Rattle.vg_split.specs.Rule.{new_driver};
ghost use Rattle.vg_ring.specs.Making.{IsNewDriver};
ghost use Rattle.vg_cargo.specs.Ends.{HasRoom, Publishes, Reaps, ReapsNone};
ghost use Rattle.vg_ring.specs.Kept.{IsOnLine, IsKept};

use crate::naming::Naming;
use std::marker::{Model, PhantomData};
use std::sync::Arc;
use vg_cargo::Cargo;
use vg_chain::Shape;
use vg_history::Tagged;
use vg_split::{Line, Pass, Places, look_at_used, note_reaped, send, take_answer, take_fetched};
use vg_wire::Queue;

/// A cargo that came back, from the chain whose head is there, with the number of bytes that were written.
#[derive(Drop)]
pub struct Reaped<P: Tagged> {
    pub head: u16,
    pub len: u32,
    pub cargo: Cargo<P>,
}

/// The end that publishes cargoes and gets them back.
#[derive(Drop)]
pub struct DriverEnd<P: Tagged, N: Naming> {
    line: Arc<Line<P>>,
    pass: Pass<P>,
    queue: Queue,
    size: u16,
    published: u64,
    reaped: u64,
    places: Places,
    /// How many cargoes of each lane were published.
    counts: Vec<u64>,
    of: PhantomData<N>,
}

impl<P: Tagged, N: Naming> Model for DriverEnd<P, N> {
    ghost use Rattle.std.specs.Prelude.{◌≡◌, [], slice_index};
    ghost use Rattle.vg_cargo.specs.Ends.{DriverLists};
    ghost use Rattle.vg_ring.specs.Kept.{driver_lists, IsOnLine, IsKept};
    ghost use Rattle.vg_split.specs.Plays.{driver_of, resting_driver};

    ghost Value = { DriverLists };

    ghost view = { λ t. driver_lists t.queue t.size (slice_index t.places.free.items t.places.at) (driver_of t.pass.me.0) };

    ghost invariant = { λ t. IsOnLine N.ring t.line.value.shared.table_id t.pass.table_id t.line.value.shared.key t.queue t.size × (t.pass.me ≡ (resting_driver t.pass.me.0, [])) × IsKept t.size (driver_of t.pass.me.0) t.published t.reaped t.places.free.items t.places.links.items t.places.at t.counts.items };
}

impl<P: Tagged, N: Naming> DriverEnd<P, N> {
    /// Whether so many descriptors are free.
    pub fn room(&self, descriptors: u16) -> bool
        ensures { result ≡ nat_le (spread self.now.published + descriptors) (self.now.size + spread (entries self.now.reaped)) }
    {
        self.places.at + descriptors as usize <= self.size as usize
    }

    /// The place of the head descriptor of the next cargo that is published.
    pub fn next_head(&self) -> u16
        requires { HasRoom self.now 1 }
        ensures head { result ≡ self.now.next }
        ensures small { result < self.now.size }
    {
        self.places.first()
    }

    /// The ordinal of the next cargo of a lane.
    pub fn next_ordinal(&self, lane: u32) -> u64
        requires { lane < 66 }
        ensures { result ≡ lane_count lane self.now.published + 1 }
    {
        self.counts[lane as usize] + 1
    }

    /// How many cargoes were published.
    pub fn published(&self) -> u64
        ensures { result ≡ length self.now.published }
    {
        self.published
    }

    /// How many cargoes came back.
    pub fn reaped(&self) -> u64
        ensures { result ≡ length self.now.reaped }
    {
        self.reaped
    }

    /// Publishes a cargo that was made for this queue, the next head and this shape, and answers the head.
    pub fn publish(&mut self, shape: Shape, cargo: Cargo<P>) -> u16
        requires count { IsCount shape }
        requires shape { cargo.parcel.shape ≡ shape }
        requires queue { cargo.parcel.queue ≡ self.old.queue }
        requires head { cargo.parcel.head ≡ self.old.next }
        requires room { (count : ℕ) × IsNeeded shape (length cargo.parcel.request) cargo.parcel.room count × HasRoom self.old count }
        requires ordinal { cargo.parcel.ordinal ≡ lane_count cargo.parcel.lane self.old.published + 1 }
        requires wanted { P.is_wanted cargo.pass ≡ true }
        requires last { length self.old.published < 2 ^ 63 - 1 }
        ensures head { result ≡ self.old.next }
        ensures published { Publishes self.old shape cargo self.new }
    {
        let lane = cargo.tag().lane;
        let extent = cargo.extent();
        let count = shape.needed(extent.request, extent.room);
        let head = self.places.first();
        send(
            &self.line,
            &mut self.pass,
            self.size,
            self.published,
            shape,
            self.places.front(count),
            cargo,
        );
        self.places.take(count);
        self.published += 1;
        self.counts[lane as usize] += 1;
        head
    }

    /// The next cargo that came back. None where the used index that was loaded is the count.
    pub fn reap(&mut self) -> Option<Reaped<P>>
        ensures { MatchOption result (ReapsNone self.old self.new) (λ r. Reaps P.is_wanted self.old r.head r.len r.cargo self.new) }
    {
        let found = look_at_used(&self.line, &mut self.pass);
        if found == self.reaped % 65536 {
            return None;
        }
        let (head, len, cargo) = take_answer(&self.line, &mut self.pass, self.size, self.reaped);
        self.places.give(head);
        self.reaped += 1;
        Some(Reaped { head, len, cargo })
    }

    /// A note of what came back.
    pub(crate) fn note(&mut self) -> Pass<P>
        ensures table { result.table_id ≡ N.ring }
        ensures note { result.me ≡ (Note [] self.old.reaped, []) }
        ensures same { self.new ≡ self.old }
    {
        note_reaped(&self.line, &mut self.pass)
    }

    /// Takes in a note of what was fetched.
    pub(crate) fn take_note(&mut self, note: Pass<P>)
        requires table { note.table_id ≡ N.ring }
        requires note { note.me ≡ (Note (fetched_of note.me.0) (reaped_of note.me.0), []) }
        ensures fetched { IsPrefix (fetched_of note.me.0) self.old.published }
        ensures same { self.new ≡ self.old }
    {
        take_fetched(&self.line, &mut self.pass, note);
    }

    pub(crate) fn of(
        line: Arc<Line<P>>,
        pass: Pass<P>,
        queue: Queue,
        size: u16,
        places: Places,
        counts: Vec<u64>,
    ) -> DriverEnd<P, N>
        requires line { IsOnLine N.ring line.value.shared.table_id pass.table_id line.value.shared.key queue size }
        requires view { pass.me ≡ (Driver new_driver, []) }
        requires kept { IsKept size new_driver 0 0 places.free.items places.links.items places.at counts.items }
        ensures { IsNewDriver queue size result }
    {
        DriverEnd {
            line,
            pass,
            queue,
            size,
            published: 0,
            reaped: 0,
            places,
            counts,
            of: PhantomData,
        }
    }
}
