//! Laws of histories, each the contract of a function without work.

ghost use Rattle.std.specs.Prelude.{◌≡◌, ◌<◌, ℕ, false, true, List, ◌++◌};
ghost use mathlib.Core.Option.{some};
ghost use lib.ListN.{get_elem?};
ghost use Rattle.vg_history.specs.declared.entry.Entry.{Entry};
ghost use Rattle.vg_history.specs.declared.entry.Entry.TheVariants.{Command};
ghost use Rattle.vg_history.specs.Lists.{Has};
ghost use Rattle.vg_history.specs.Entries.{EachOnce, IsSameCall};
ghost use Rattle.vg_history.specs.History.{replay, AgreesFrom, holds_after, GivesNothingUp, Ordered, HasFence};

use crate::machine::Machine;

/// A law, and no work: where no call stands twice, two entries of one call are one entry.
pub fn one_of_a_call<M: Machine>()
    ensures { (es : _) (e f : Entry M M.State M.Act M.ActReply M.Request M.Reply M.Holds M.Job) → EachOnce es → Has es e → Has es f → IsSameCall e f → e ≡ f }
{}

/// A law, and no work: a replay goes on where the replay of a beginning ended, and what a history agrees with, each
/// beginning of it does.
pub fn replay_goes_on<M: Machine>()
    ensures state { (s : M.State) (xs ys : List (Entry M M.State M.Act M.ActReply M.Request M.Reply M.Holds M.Job)) → replay M.Machine s (xs ++ ys) ≡ replay M.Machine (replay M.Machine s xs) ys }
    ensures beginning { (s : M.State) (xs ys : List (Entry M M.State M.Act M.ActReply M.Request M.Reply M.Holds M.Job)) → AgreesFrom M.Machine s (xs ++ ys) → AgreesFrom M.Machine s xs }
{}

/// A law, and no work: what a client may ask it may ask still, as long as no act of its own gives something up.
pub fn allowed_still<M: Machine>()
    ensures { (c : ℕ) (h : M.Holds) (es : _) (q : M.Request) → GivesNothingUp M.Machine c es → M.allows h q ≡ true → M.allows (holds_after M.Machine c h es) q ≡ true }
{}

/// A law, and no work: in a history whose lanes are in order, a command stands behind all of its lane with smaller
/// ordinals.
pub fn fence_behind<M: Machine>()
    ensures { (es : _) (k c n : ℕ) (q : M.Request) (p : M.Reply) → Ordered M.Machine es → get_elem? es k ≡ some (Command c n q p) → HasFence M.Machine (M.tagged q).0 (M.tagged q).1 es }
{}
