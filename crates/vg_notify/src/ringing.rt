//! The ringer's steps.

ghost use Rattle.std.specs.Prelude.{◌≡◌, ◌+◌, ◌<◌, ◌≤◌, []};
ghost use Rattle.vg_notify.specs.declared.views.RingerStage.TheVariants as ringer;
ghost use Rattle.vg_notify.specs.declared.views.View.TheVariants.{Rings, Note};
ghost use Rattle.vg_notify.specs.Plays.{ringer_of, staged, stored, found_in, raised};
ghost use Rattle.vg_notify.specs.Halves.{IsOnBell};

use crate::law::{Line, Pass};
use crate::plays::{LoadsEvent, NotesRung, Raises, StoresCount};

/// Stores the published count.
pub(crate) fn store_count(line: &Line, pass: &mut Pass, count: u64)
    requires line { IsOnBell line.now.shared.table_id pass.old.table_id }
    requires view { pass.old.me ≡ (Rings (staged (ringer_of pass.old.me.0) ringer.Resting), []) }
    requires later { (ringer_of pass.old.me.0).count ≤ count }
    requires near { count ≤ (ringer_of pass.old.me.0).count + 32768 }
    ensures line { pass.new.table_id ≡ pass.old.table_id }
    ensures view { pass.new.me ≡ (Rings (stored (ringer_of pass.old.me.0) count), []) }
{
    line.shared.store::<StoresCount>(pass, 0, count);
}

/// Loads the event.
pub(crate) fn load_event(line: &Line, pass: &mut Pass) -> u64
    requires line { IsOnBell line.now.shared.table_id pass.old.table_id }
    requires view { pass.old.me ≡ (Rings (ringer_of pass.old.me.0), []) }
    ensures line { pass.new.table_id ≡ pass.old.table_id }
    ensures view { pass.new.me ≡ (Rings (found_in (ringer_of pass.old.me.0) result), []) }
{
    line.shared.load::<LoadsEvent>(pass, 1)
}

/// Raises a kick, which is this one in number.
pub(crate) fn raise(line: &Line, pass: &mut Pass, kicks: u64)
    requires line { IsOnBell line.now.shared.table_id pass.old.table_id }
    requires view { pass.old.me ≡ (Rings (staged (ringer_of pass.old.me.0) ringer.Raising), []) }
    requires kicks { kicks ≡ (ringer_of pass.old.me.0).rung + 1 }
    ensures line { pass.new.table_id ≡ pass.old.table_id }
    ensures view { pass.new.me ≡ (Rings (raised (ringer_of pass.old.me.0)), []) }
{
    line.shared.store::<Raises>(pass, 2, kicks);
}

/// A note of what was published and of the kicks.
pub(crate) fn note_rung(line: &Line, pass: &mut Pass) -> Pass
    requires line { IsOnBell line.now.shared.table_id pass.old.table_id }
    requires view { pass.old.me ≡ (Rings (staged (ringer_of pass.old.me.0) ringer.Resting), []) }
    ensures line { pass.new.table_id ≡ pass.old.table_id }
    ensures view { pass.new.me ≡ pass.old.me }
    ensures note { (result.table_id ≡ pass.old.table_id) × (result.me ≡ (Note (ringer_of pass.old.me.0).count (ringer_of pass.old.me.0).rung, [])) }
{
    line.shared.split_seat::<NotesRung>(pass)
}
