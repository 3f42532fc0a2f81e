//! Laws of verdicts, each the contract of a function that does no work.

ghost use Rattle.std.specs.Prelude.{◌≡◌, ℕ};
ghost use Rattle.vg_journal.specs.declared.journal.Journal.{Journal};
ghost use Rattle.vg_judge.specs.Verdicts.{IsLegal, IsWrong};

use vg_check::{one_entry_is_wrong_first, right_entries_go_on, right_is_sound};

/// A law, and no work: a journal is a legal history's, or something is wrong first, one entry or what is said beside them, and it
/// isn't both.
pub fn each_journal_has_one_verdict()
    ensures one { (journal : Journal) (n m : ℕ) → IsWrong journal n → IsWrong journal m → n ≡ m }
    ensures not_both { (journal : Journal) (n : ℕ) → IsLegal journal → IsWrong journal n → ⊥ }
    ensures some { (journal : Journal) → (IsLegal journal → ⊥) → ((n : ℕ) → IsWrong journal n → ⊥) → ⊥ }
{
    right_is_sound();
    one_entry_is_wrong_first();
    right_entries_go_on();
}
