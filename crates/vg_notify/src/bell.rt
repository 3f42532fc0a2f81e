//! Making a bell.

ghost use Rattle.std.specs.Prelude.{◌≡◌, false, [], ◌∷◌, IfOk};
ghost use Rattle.vg_notify.specs.declared.views.View.TheVariants.{Rings, Sleeps};
ghost use Rattle.vg_notify.specs.Plays.{new_ringer, new_sleeper};
ghost use Rattle.vg_notify.specs.Halves.{IsOnBell};

use crate::law::{Line, Pass};
use crate::plays::CutsHalves;
use crate::ringer::Ringer;
use crate::sleeper::Sleeper;
use atomic_table::Table;
use std::alloc::{AllocError, Global};
use std::sync::Arc;

/// Makes bells.
pub enum Bell {}

/// The table of a bell, and the seats of its two halves.
fn make_line(alloc: Global) -> Result<(Line, Pass, Pass), AllocError>
    ensures ringer { IfOk result (λ t. IsOnBell t.0.shared.table_id t.1.table_id × (t.1.me ≡ (Rings new_ringer, []))) }
    ensures sleeper { IfOk result (λ t. IsOnBell t.0.shared.table_id t.2.table_id × (t.2.me ≡ (Sleeps new_sleeper, []))) }
{
    let (line, mut ringer) = Table::of_words(alloc, &[0, 0, 0], &())?;
    let sleeper = line.shared.split_seat::<CutsHalves>(&mut ringer);
    Ok((line, ringer, sleeper))
}

impl Bell {
    /// The two halves of a new bell: nothing was published, and the sleeper is awake.
    pub fn make(alloc: Global) -> Result<(Ringer, Sleeper), AllocError>
        ensures bell { IfOk result (λ b. b.0.bell ≡ b.1.bell) }
        ensures ringer { IfOk result (λ b. (b.0.count ≡ 0) × (b.0.rung ≡ 0)) }
        ensures sleeper { IfOk result (λ b. (b.1.asleep ≡ false) × (b.1.loaded ≡ 0)) }
    {
        let (line, ringer, sleeper) = make_line(alloc)?;
        let line = Arc::new(alloc, line)?;
        let other = Arc::try_clone(&line)?;
        Ok((Ringer::of(line, ringer), Sleeper::of(other, sleeper)))
    }
}
