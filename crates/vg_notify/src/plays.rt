//! What the steps of a bell's table tell, and how its seats are cut in two and joined.

ghost use Rattle.std.specs.Prelude.{◌≡◌, ◌<◌, true, []};
ghost use Rattle.vg_notify.specs.declared.views.View.TheVariants.{Rings, Sleeps, Note, Spent};
ghost use Rattle.vg_notify.specs.Plays.{ringer_of, sleeper_of, count_noted, rung_noted, new_ringer, new_sleeper, stored, found_in, raised, roused, waiting_for, counted, listened, noted};

use crate::views::View;
use atomic_table::{Join, Play, Split};

/// The published count is stored.
pub(crate) enum StoresCount {}

impl Play<(), View> for StoresCount {
    ghost then = { λ st me found after. after ≡ (Rings (stored (ringer_of me.0) found), []) };
}

/// The event is loaded.
pub(crate) enum LoadsEvent {}

impl Play<(), View> for LoadsEvent {
    ghost then = { λ st me found after. after ≡ (Rings (found_in (ringer_of me.0) found), []) };
}

/// A kick is raised.
pub(crate) enum Raises {}

impl Play<(), View> for Raises {
    ghost then = { λ st me found after. after ≡ (Rings (raised (ringer_of me.0)), []) };
}

/// The kicks are loaded, at which the sleeper wakes.
pub(crate) enum LoadsKicks {}

impl Play<(), View> for LoadsKicks {
    ghost then = { λ st me found after. after ≡ (Sleeps (roused (sleeper_of me.0) found), []) };
}

/// The event is stored.
pub(crate) enum StoresEvent {}

impl Play<(), View> for StoresEvent {
    ghost then = { λ st me found after. after ≡ (Sleeps (waiting_for (sleeper_of me.0) found), []) };
}

/// The published count is loaded, and the sleeper is asleep where it is the event.
pub(crate) enum LoadsCount {}

impl Play<(), View> for LoadsCount {
    ghost then = { λ st me found after. after ≡ (Sleeps (counted (sleeper_of me.0) found), []) };
}

/// The kicks are loaded, and the sleeper wakes where there are more than at its arming.
pub(crate) enum Hears {}

impl Play<(), View> for Hears {
    ghost then = { λ st me found after. after ≡ (Sleeps (listened (sleeper_of me.0) found), []) };
}

pub(crate) enum CutsHalves {}

impl Split<View> for CutsHalves {
    ghost left = { λ _. Rings new_ringer };

    ghost right = { λ _. Sleeps new_sleeper };
}

/// The ringer writes a note of what it has.
pub(crate) enum NotesRung {}

impl Split<View> for NotesRung {
    ghost left = { λ view. view };

    ghost right = { λ view. Note (ringer_of view).count (ringer_of view).rung };
}

pub(crate) enum TakesNote {}

impl Join<View> for TakesNote {
    ghost both = { λ view note. Sleeps (noted (sleeper_of view) (count_noted note) (rung_noted note)) };

    ghost spent = { Spent };
}

/// A load, which tells what the note says of a sleeper that is asleep.
pub(crate) enum TellsNote {}

impl Play<(), View> for TellsNote {
    ghost then = { λ st me found after. (after ≡ me) × ((sleeper_of me.0).asleep ≡ true → (sleeper_of me.0).event < (sleeper_of me.0).noted_count → (sleeper_of me.0).loaded < (sleeper_of me.0).noted_rung) };
}
