//! Laws of used numbers and of the entries that use them, each the contract of a function that does no work.

ghost use Rattle.std.specs.Prelude.{◌≡◌, ◌≢◌, ◌≤◌, ◌<◌, ◌↔◌, ℕ, false, List, [], ◌∷◌, ◌++◌};
ghost use Rattle.std.specs.List.{AllByRecursion, range_with_len};
ghost use Rattle.vg_call_numbers.specs.Numbers.{AreAllUsed, IsAdded, UsedNumbers, is_used};
ghost use Rattle.vg_call_numbers.specs.Taken.{IsUsedBy, by_number};

/// A law, and no work: at first no entry uses a number, and what is added is the number of one entry more.
pub fn entries_use_numbers()
    ensures none { IsUsedBy (record { top = 0; gaps = [] }) [] }
    ensures more { (old new : UsedNumbers) (number : ℕ) (taken : List ℕ) → 1 ≤ number → is_used old number ≡ false → IsAdded old number new
        → IsUsedBy old taken → IsUsedBy new (taken ++ number ∷ []) }
{}

/// A law, and no work: a number isn't used where no entry has it, and is above all that are used where it is above that of
/// each entry.
pub fn entries_have_no_such_number()
    ensures fresh { (numbers : UsedNumbers) (number : ℕ) (taken : List ℕ) → IsUsedBy numbers taken
        → (is_used numbers number ≡ false) ↔ AllByRecursion (λ one. one ≢ number) taken }
    ensures above { (numbers : UsedNumbers) (number : ℕ) (taken : List ℕ) → 1 ≤ number → IsUsedBy numbers taken
        → (numbers.top < number) ↔ AllByRecursion (λ one. one < number) taken }
{}

/// A law, and no work: all numbers from 1 to the greatest are used where those of the entries, rising, are all from 1 on.
pub fn entries_have_all_numbers()
    ensures { (numbers : UsedNumbers) (taken : List ℕ) (count : ℕ) → IsUsedBy numbers taken
        → (AreAllUsed numbers × (numbers.top ≡ count)) ↔ (by_number taken ≡ range_with_len 1 count) }
{}
