//! Laws of a bell.

ghost use Rattle.std.specs.Prelude.{◌≡◌, ℕ, ◌+◌, ◌<◌, ◌≤◌, true, false};
ghost use Rattle.atomic_table.specs.Table.{State};
ghost use Rattle.vg_notify.specs.declared.views.View.{View};
ghost use Rattle.vg_notify.specs.Need.{calls_for};
ghost use Rattle.vg_notify.specs.Rule.{Holds, KickAt};

/// A kick is called for exactly where the count passes the event: the event was reached before, or it was not. Counts are whole here, and
/// none of them is further from another than a ring's indices can tell.
pub fn need_is_passing()
    ensures passed { (event new old : ℕ) → old ≤ event → event < new → new ≤ old + 32768 → calls_for event new old ≡ true }
    ensures ahead { (event new old : ℕ) → old ≤ new → new ≤ old + 32768 → new ≤ event → event < new + 32768 → calls_for event new old ≡ false }
    ensures behind { (event new old : ℕ) → event < old → old ≤ new → new ≤ event + 65536 → calls_for event new old ≡ false }
{}

/// What the rule of a bell's table says at every moment, between the steps of its calls too: where the sleeper is asleep and more is
/// published than its event, there were more kicks than it has loaded, or the ringer is about to kick it.
pub fn kick_at_every_moment()
    ensures { (s : State (Unit {0}) View) → Holds s → KickAt s }
{}
