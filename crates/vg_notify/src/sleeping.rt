//! The sleeper's steps.

ghost use Rattle.std.specs.Prelude.{◌≡◌, ◌<◌, true, false, []};
ghost use Rattle.vg_notify.specs.declared.views.View.TheVariants.{Sleeps, Note};
ghost use Rattle.vg_notify.specs.Plays.{sleeper_of, count_noted, rung_noted, roused, waiting_for, counted, listened, noted};
ghost use Rattle.vg_notify.specs.Halves.{IsOnBell};

use crate::law::{Line, Pass};
use crate::plays::{Hears, LoadsCount, LoadsKicks, StoresEvent, TakesNote, TellsNote};

/// Loads the kicks, before an event is stored.
pub(crate) fn load_kicks(line: &Line, pass: &mut Pass) -> u64
    requires line { IsOnBell line.now.shared.table_id pass.old.table_id }
    requires view { pass.old.me ≡ (Sleeps (sleeper_of pass.old.me.0), []) }
    ensures line { pass.new.table_id ≡ pass.old.table_id }
    ensures view { pass.new.me ≡ (Sleeps (roused (sleeper_of pass.old.me.0) result), []) }
{
    line.shared.load::<LoadsKicks>(pass, 2)
}

/// Stores an event, while nobody is asleep.
pub(crate) fn store_event(line: &Line, pass: &mut Pass, event: u64)
    requires line { IsOnBell line.now.shared.table_id pass.old.table_id }
    requires view { pass.old.me ≡ (Sleeps (sleeper_of pass.old.me.0), []) }
    requires awake { (sleeper_of pass.old.me.0).asleep ≡ false }
    ensures line { pass.new.table_id ≡ pass.old.table_id }
    ensures view { pass.new.me ≡ (Sleeps (waiting_for (sleeper_of pass.old.me.0) event), []) }
{
    line.shared.store::<StoresEvent>(pass, 1, event);
}

/// Loads the published count.
pub(crate) fn load_count(line: &Line, pass: &mut Pass) -> u64
    requires line { IsOnBell line.now.shared.table_id pass.old.table_id }
    requires view { pass.old.me ≡ (Sleeps (sleeper_of pass.old.me.0), []) }
    ensures line { pass.new.table_id ≡ pass.old.table_id }
    ensures view { pass.new.me ≡ (Sleeps (counted (sleeper_of pass.old.me.0) result), []) }
{
    line.shared.load::<LoadsCount>(pass, 0)
}

/// Loads the kicks while it is asleep.
pub(crate) fn hear(line: &Line, pass: &mut Pass) -> u64
    requires line { IsOnBell line.now.shared.table_id pass.old.table_id }
    requires view { pass.old.me ≡ (Sleeps (sleeper_of pass.old.me.0), []) }
    requires asleep { (sleeper_of pass.old.me.0).asleep ≡ true }
    ensures line { pass.new.table_id ≡ pass.old.table_id }
    ensures view { pass.new.me ≡ (Sleeps (listened (sleeper_of pass.old.me.0) result), []) }
{
    line.shared.load::<Hears>(pass, 2)
}

/// Takes a note in: a sleeper that is asleep at less than the note's count was kicked as often as it says.
pub(crate) fn take_rung(line: &Line, pass: &mut Pass, note: Pass)
    requires line { IsOnBell line.now.shared.table_id pass.old.table_id × IsOnBell line.now.shared.table_id note.table_id }
    requires view { pass.old.me ≡ (Sleeps (sleeper_of pass.old.me.0), []) }
    requires note { note.me ≡ (Note (count_noted note.me.0) (rung_noted note.me.0), []) }
    ensures line { pass.new.table_id ≡ pass.old.table_id }
    ensures view { pass.new.me ≡ (Sleeps (noted (sleeper_of pass.old.me.0) (count_noted note.me.0) (rung_noted note.me.0)), []) }
    ensures kick { (sleeper_of pass.old.me.0).asleep ≡ true → (sleeper_of pass.old.me.0).event < count_noted note.me.0 → (sleeper_of pass.old.me.0).loaded < rung_noted note.me.0 }
{
    line.shared.join_seat::<TakesNote>(pass, note);
    line.shared.load::<TellsNote>(pass, 0);
}
