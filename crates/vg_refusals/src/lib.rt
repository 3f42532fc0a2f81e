//! Refusals of a command: a list of conditions with their codes, of which the first that holds decides.
#![tactic(auto)]

ghost use Rattle.std.specs.Prelude.{◌≡◌, Bool, true, false, List, ◌∷◌, ◌++◌, Some, None};
ghost use Rattle.std.specs.List.{All};
ghost use Rattle.vg_refusals.specs.Refusals.{refusal_of};

/// A law, and no work: where no condition of a list holds nothing is refused, and where one holds and none before it, it is
/// the one that is answered.
pub fn the_first_decides<R>()
    ensures none { (refusals : List (Bool × R)) → All (λ refusal. refusal.0 ≡ false) refusals → refusal_of refusals ≡ None }
    ensures first { (before more : List (Bool × R)) (code : R) → All (λ refusal. refusal.0 ≡ false) before
        → refusal_of (before ++ (true, code) ∷ more) ≡ Some code }
{}
