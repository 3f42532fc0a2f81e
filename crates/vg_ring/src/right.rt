//! The right to a cargo that the device's end has lent.

ghost use Rattle.std.specs.Prelude.{◌≡◌, [], ◌∷◌, true, false};
ghost use Rattle.vg_split.specs.declared.views.View.TheVariants as views;
ghost use Rattle.vg_cargo.specs.Entries.{head_of};
ghost use Rattle.vg_ring.specs.Tended.{IsRight, right_data};

use crate::naming::Naming;
use atomic_table::Badge;
use std::marker::{Model, PhantomData};
use vg_cargo::{Cargo, Tag};
use vg_history::Tagged;
use vg_split::{Pass, View};

/// A right to the cargo of a head: while it is outside, the head isn't completed.
#[derive(Drop)]
pub struct Right<N: Naming> {
    badge: Badge<View>,
    head: u16,
    tag: Tag,
    walked: bool,
    of: PhantomData<N>,
}

impl<N: Naming> Model for Right<N> {
    ghost use Rattle.std.specs.Prelude.{◌≡◌};
    ghost use Rattle.vg_cargo.specs.DeviceEnds.{RightData};
    ghost use Rattle.vg_ring.specs.Tended.{right_data, IsRight};

    ghost Value = { RightData };

    ghost view = { λ r. right_data r.badge.views r.walked };

    ghost invariant = { λ r. IsRight N.ring r.badge.table_id r.badge.views r.head r.tag };
}

impl<N: Naming> Right<N> {
    /// The place of the head descriptor.
    pub fn head(&self) -> u16
        ensures { result ≡ head_of self.now.entry }
    {
        self.head
    }

    /// The cargo's lane and ordinal.
    pub fn tag(&self) -> Tag
        ensures { (result.lane ≡ self.now.entry.lane) × (result.ordinal ≡ self.now.entry.ordinal) }
    {
        self.tag
    }

    /// Whether the cargo's chain was walked.
    pub fn walked(&self) -> bool
        ensures { result ≡ self.now.walked }
    {
        self.walked
    }

    pub(crate) fn set_walked(&mut self)
        ensures { self.new ≡ record self.old { walked = true } }
    {
        self.walked = true;
    }

    pub(crate) fn of<P: Tagged>(seat: Pass<P>, head: u16, tag: Tag) -> Right<N>
        requires right { IsRight N.ring seat.table_id (seat.me.0 ∷ []) head tag }
        requires slots { seat.me.1 ≡ [] }
        ensures { result ≡ right_data (seat.me.0 ∷ []) false }
    {
        Right {
            badge: seat.into_badge(),
            head,
            tag,
            walked: false,
            of: PhantomData,
        }
    }

    pub(crate) fn into_seat<P: Tagged>(self) -> Pass<P>
        ensures table { result.table_id ≡ N.ring }
        ensures seat { result.me ≡ (views.Right self.entry, []) }
    {
        let Right { badge, .. } = self;
        badge.into_seat()
    }
}
