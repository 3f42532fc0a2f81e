//! What the two halves of one bell have of each other.

ghost use Rattle.std.specs.Prelude.{◌≡◌, ◌<◌, true};

use crate::ringer::Ringer;
use crate::sleeper::Sleeper;

/// Changes nothing, and tells that no kick is missing: a sleeper that is asleep at less than what was published was kicked.
pub fn bell_agrees(ringer: &mut Ringer, sleeper: &mut Sleeper)
    requires bell { ringer.old.bell ≡ sleeper.old.bell }
    ensures kick { sleeper.old.asleep ≡ true → sleeper.old.event < ringer.old.count → sleeper.old.loaded < ringer.old.rung }
    ensures ringer { ringer.new ≡ ringer.old }
    ensures sleeper { sleeper.new ≡ sleeper.old }
{
    let note = ringer.note();
    sleeper.take_note(note);
}
