//! What words say and what is printed are each other's inverse. These are laws, and do no work.

ghost use Rattle.std.specs.List.{join_with_byte, All};
ghost use Rattle.std.specs.Prelude.{◌≡◌, ◌<◌, ◌≤◌, ◌^◌, ℕ, List, Some, true, ◌∷◌, length, decimal};
ghost use Rattle.vg_text.specs.Text.{hex_text};
ghost use Rattle.vg_line_words.specs.Words.{AreBelow, parts_at, lacks, is_plain, number_of, bytes_of, bytes_within, numbers_of, numbers_text};

/// A number below the bound is read from its decimal digits, and from nothing else.
pub fn numbers_and_their_words()
    ensures back { (bound n : ℕ) → n < bound → bound ≤ 2 ^ 64 → number_of bound (decimal n) ≡ Some n }
    ensures only { (bound n : ℕ) (word : List ℕ) → bound ≤ 2 ^ 64 → number_of bound word ≡ Some n → word ≡ decimal n }
    ensures range { (bound n : ℕ) (word : List ℕ) → number_of bound word ≡ Some n → n < bound }
    ensures plain { (n : ℕ) → n < 2 ^ 64 → is_plain (decimal n) ≡ true }
{}

/// Bytes are read from their digits, and from nothing else.
pub fn bytes_and_their_words()
    ensures back { (bytes : List ℕ) → AreBelow 256 bytes → bytes_of (hex_text bytes) ≡ Some bytes }
    ensures only { (word bytes : List ℕ) → bytes_of word ≡ Some bytes → word ≡ hex_text bytes }
    ensures range { (word bytes : List ℕ) → bytes_of word ≡ Some bytes → AreBelow 256 bytes }
    ensures few { (most : ℕ) (word bytes : List ℕ) → bytes_of word ≡ Some bytes → length bytes ≤ most
        → bytes_within most word ≡ Some bytes }
    ensures within { (most : ℕ) (word bytes : List ℕ) → bytes_within most word ≡ Some bytes
        → (bytes_of word ≡ Some bytes) × (length bytes ≤ most) }
    ensures plain { (bytes : List ℕ) → AreBelow 256 bytes → is_plain (hex_text bytes) ≡ true }
{}

/// A list of numbers below the bound is read from its text, and from nothing else.
pub fn lists_and_their_words()
    ensures back { (bound : ℕ) (numbers : List ℕ) → AreBelow bound numbers → bound ≤ 2 ^ 64 → numbers_of bound (numbers_text numbers) ≡ Some numbers }
    ensures only { (bound : ℕ) (word numbers : List ℕ) → bound ≤ 2 ^ 64 → numbers_of bound word ≡ Some numbers → word ≡ numbers_text numbers }
    ensures range { (bound : ℕ) (word numbers : List ℕ) → numbers_of bound word ≡ Some numbers → AreBelow bound numbers }
    ensures plain { (numbers : List ℕ) → AreBelow (2 ^ 64) numbers → is_plain (numbers_text numbers) ≡ true }
{}

/// Words that lack the mark are the parts of the text that has them in a row with a mark between two, and each text is its
/// parts in a row.
pub fn words_and_their_line()
    ensures back { (mark : ℕ) (word : List ℕ) (words : List (List ℕ)) → All (λ w. lacks mark w ≡ true) (word ∷ words)
        → parts_at mark (join_with_byte mark (word ∷ words)) ≡ word ∷ words }
    ensures only { (mark : ℕ) (text : List ℕ) → join_with_byte mark (parts_at mark text) ≡ text }
{}

/// Plain words that stand in a row with a blank between two are the parts of their line, which has no line end in it, and
/// none of them has a `=`.
pub fn plain_words_and_their_line()
    ensures back { (word : List ℕ) (words : List (List ℕ)) → All (λ w. is_plain w ≡ true) (word ∷ words)
        → parts_at 32 (join_with_byte 32 (word ∷ words)) ≡ word ∷ words }
    ensures line { (words : List (List ℕ)) → All (λ w. is_plain w ≡ true) words → lacks 10 (join_with_byte 32 words) ≡ true }
    ensures sign { (word : List ℕ) → is_plain word ≡ true → lacks 61 word ≡ true }
{}
