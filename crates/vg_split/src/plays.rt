//! What the steps of a ring's table tell, and how its seats are cut in two and joined.

ghost use Rattle.std.specs.Prelude.{◌≡◌, ◌%◌, ◌^◌, None, [], ◌∷◌};
ghost use mathlib.Core.List.{IsPrefix};
ghost use Rattle.vg_split.specs.declared.views.View.TheVariants.{Driver, Device, Right, Note, Spent};
ghost use Rattle.vg_cargo.specs.Entries.{Has};
ghost use Rattle.vg_split.specs.Rule.{new_driver, new_device, looked_by_driver, looked_by_device, lent_after, returned_after};
ghost use Rattle.vg_split.specs.Plays.{driver_of, device_of, queue_of, place_at, with_half, with_rest, offered, sent_with, rested, answering, answered_with, naming, named_by, lent_by, right_of, noted_by_driver, noted_by_device, fetched_noted, reaped_noted};
ghost use Rattle.vg_split.specs.Tells.{IsReaped, IsTaken, TellsWord};

use crate::views::View;
use atomic_table::{Join, Play, Split};
use vg_cargo::Cargo;
use vg_history::Tagged;

pub(crate) enum StoresAddress {}

impl<P: Tagged> Play<Option<Cargo<P>>, View> for StoresAddress {
    ghost then = { λ st me found after. after ≡ (with_half me.0 st.word found, me.1) };
}

pub(crate) enum StoresRest {}

impl<P: Tagged> Play<Option<Cargo<P>>, View> for StoresRest {
    ghost then = { λ st me found after. after ≡ (with_rest me.0 found, me.1) };
}

/// The available element is stored, and the slot of the head is taken.
pub(crate) enum Offers {}

impl<P: Tagged> Play<Option<Cargo<P>>, View> for Offers {
    ghost then = { λ st me found after. after ≡ (offered me.0, (found, None) ∷ me.1) };
}

/// The available index is stored, and the slot goes home.
pub(crate) enum Publishes {}

impl<P: Tagged> Play<Option<Cargo<P>>, View> for Publishes {
    ghost then = { λ st me found after. after ≡ (sent_with me.0 me.1, []) };
}

/// The used index is loaded.
pub(crate) enum LooksAtUsed {}

impl<P: Tagged> Play<Option<Cargo<P>>, View> for LooksAtUsed {
    ghost then = { λ st me found after. after ≡ (Driver (looked_by_driver (driver_of me.0) found), []) };
}

/// The used element is loaded, and the slot of its head is taken.
pub(crate) enum Reaps {}

impl<P: Tagged> Play<Option<Cargo<P>>, View> for Reaps {
    ghost then = { λ st me found after. IsReaped P.is_wanted st.slots (driver_of me.0) found after };
}

/// A load, at which the empty slot of an end goes home.
pub(crate) enum Settles {}

impl<P: Tagged> Play<Option<Cargo<P>>, View> for Settles {
    ghost then = { λ st me found after. after ≡ (rested me.0, []) };
}

/// The available index is loaded.
pub(crate) enum LooksAtAvailable {}

impl<P: Tagged> Play<Option<Cargo<P>>, View> for LooksAtAvailable {
    ghost then = { λ st me found after. after ≡ (Device (looked_by_device (device_of me.0) found), []) };
}

/// The available element is loaded, and the slot of its head is taken.
pub(crate) enum Fetches {}

impl<P: Tagged> Play<Option<Cargo<P>>, View> for Fetches {
    ghost then = { λ st me found after. IsTaken P.is_wanted st.slots (device_of me.0) found after };
}

/// The used element is stored, and the empty slot of the head is taken.
pub(crate) enum Answers {}

impl<P: Tagged> Play<Option<Cargo<P>>, View> for Answers {
    ghost then = { λ st me found after. after ≡ (answering me.0 found, (found % 2 ^ 32, None) ∷ me.1) };
}

/// The used index is stored, and the slot goes home.
pub(crate) enum Completes {}

impl<P: Tagged> Play<Option<Cargo<P>>, View> for Completes {
    ghost then = { λ st me found after. after ≡ (answered_with me.0 me.1, []) };
}

/// A word of a descriptor is loaded, whose place names the head that is to be lent.
pub(crate) enum Names {}

impl<P: Tagged> Play<Option<Cargo<P>>, View> for Names {
    ghost then = { λ st me found after. after ≡ (naming me.0 (place_at st.word), me.1) };
}

/// A load, which tells that the right that was taken in was lent.
pub(crate) enum TellsLent {}

impl<P: Tagged> Play<Option<Cargo<P>>, View> for TellsLent {
    ghost then = { λ st me found after. (after ≡ (rested me.0, [])) × Has (named_by me.0) (lent_by me.0) };
}

/// A word is loaded, which is that of an entry that is held where it has the word.
pub(crate) enum Reads {}

impl<P: Tagged> Play<Option<Cargo<P>>, View> for Reads {
    ghost then = { λ st me found after. (after ≡ me) × TellsWord st.slots st.word found (device_of me.0).held };
}

pub(crate) enum CutsEnds {}

impl Split<View> for CutsEnds {
    ghost left = { λ _. Driver new_driver };

    ghost right = { λ view. Device (new_device (queue_of view)) };
}

pub(crate) enum CutsRight {}

impl Split<View> for CutsRight {
    ghost left = { λ view. Device (lent_after (device_of view) (named_by view)) };

    ghost right = { λ view. Right (named_by view) };
}

pub(crate) enum TakesRight {}

impl Join<View> for TakesRight {
    ghost both = { λ view right. Device (returned_after (device_of view) (right_of right)) };

    ghost spent = { Spent };
}

/// The device's end writes a note of what it has fetched.
pub(crate) enum NotesFetched {}

impl Split<View> for NotesFetched {
    ghost left = { λ view. view };

    ghost right = { λ view. Note (device_of view).fetched [] };
}

/// The driver's end writes a note of what came back.
pub(crate) enum NotesReaped {}

impl Split<View> for NotesReaped {
    ghost left = { λ view. view };

    ghost right = { λ view. Note [] (driver_of view).reaped };
}

pub(crate) enum DriverTakesNote {}

impl Join<View> for DriverTakesNote {
    ghost both = { noted_by_driver };

    ghost spent = { Spent };
}

pub(crate) enum DeviceTakesNote {}

impl Join<View> for DeviceTakesNote {
    ghost both = { noted_by_device };

    ghost spent = { Spent };
}

/// A load, which tells that what the note says that was fetched was published.
pub(crate) enum TellsFetched {}

impl<P: Tagged> Play<Option<Cargo<P>>, View> for TellsFetched {
    ghost then = { λ st me found after. (after ≡ (rested me.0, [])) × IsPrefix (fetched_noted (driver_of me.0).stage) (driver_of me.0).published };
}

/// A load, which tells that what the note says that came back was completed.
pub(crate) enum TellsReaped {}

impl<P: Tagged> Play<Option<Cargo<P>>, View> for TellsReaped {
    ghost then = { λ st me found after. (after ≡ (rested me.0, [])) × IsPrefix (reaped_noted (device_of me.0).stage) (device_of me.0).completed };
}
