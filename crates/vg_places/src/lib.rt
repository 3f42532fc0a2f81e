//! Words and laws on lists that are told place by place, and rectangles of lists that are laid out in rows.
#![tactic(auto)]

mod rectangles;

ghost use Rattle.std.specs.Prelude.{◌≡◌, ◌<◌, ℕ, List, Some, IfOk, length, replicate, slice_get};
ghost use Rattle.vg_places.specs.Places.{tabulate};

pub use rectangles::{Area, fill_at_each_place};
use std::alloc::{AllocError, Global};

/// A law, and no work: two lists of one length that agree at each place are equal.
pub fn agree_at_each_place<T>()
    ensures { (xs ys : List T) → length xs ≡ length ys
        → ((k : ℕ) → k < length xs → slice_get xs k ≡ slice_get ys k) → xs ≡ ys }
{}

/// A law, and no work: `tabulate n f` has `n` elements, and `f k` at each place `k` below `n`.
pub fn tabulate_at_each_place<T>()
    ensures length { (n : ℕ) (f : ℕ → T) → length (tabulate n f) ≡ n }
    ensures element { (n : ℕ) (f : ℕ → T) (k : ℕ) → k < n → slice_get (tabulate n f) k ≡ Some (f k) }
{}

/// This many bytes, all 0.
pub fn zeros(alloc: Global, size: usize) -> Result<Vec<u8>, AllocError>
    ensures { IfOk result (λ bytes. bytes.items ≡ replicate size 0) }
{
    vec![in alloc; 0u8; size]
}
