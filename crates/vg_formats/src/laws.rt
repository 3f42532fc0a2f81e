//! Laws on rectangles, formats and rows that are shown, each the contract of a function that does no work.

ghost use Rattle.std.specs.Prelude.{◌≡◌, ℕ, ◌+◌, ◌*◌, ◌%◌, ◌<◌, ◌≤◌, List, drop, length, take};
ghost use Rattle.vg_formats.specs.declared.rect.Rect.{Rect};
ghost use Rattle.vg_formats.specs.declared.format.Format.{Format};
ghost use Rattle.vg_formats.specs.declared.format.Format.TheVariants.{B8G8R8A8};
ghost use Rattle.vg_formats.specs.Pixels.{Covers, HasPixels};
ghost use Rattle.vg_formats.specs.Formats.{code_of, shown_bytes};
ghost use Rattle.vg_formats.specs.Shown.{pixel_at, shown_row, shown_rows};

/// A law, and no work: two rectangles that have pixels, and the same ones, are one rectangle.
pub fn pixels_tell_the_rectangle()
    ensures { (a b : Rect) → HasPixels a → HasPixels b
        → ((x y : ℕ) → Covers a x y → Covers b x y) → ((x y : ℕ) → Covers b x y → Covers a x y) → a ≡ b }
{}

/// A law, and no work: no two formats have one code.
pub fn each_code_once()
    ensures { (a b : Format) → code_of a ≡ code_of b → a ≡ b }
{}

/// A law, and no work: a row of pixels is as long when it is shown, and each of its pixels is shown as its own four bytes are.
pub fn show_each_pixel()
    ensures length { (format : Format) (pixels : List ℕ) → length (shown_row format pixels) ≡ length pixels }
    ensures pixel { (format : Format) (pixels : List ℕ) (n : ℕ) → 4 * n + 4 ≤ length pixels
        → pixel_at (shown_row format pixels) n ≡ shown_bytes format (pixel_at pixels n) }
{}

/// A law, and no work: where pixels are shown as they are, and their rows follow each other and are as wide as the screen, a whole
/// screen of them is their own bytes.
pub fn rows_are_their_bytes()
    ensures { (row_length height offset : ℕ) (pixels screen : List ℕ) → 0 < row_length → row_length % 4 ≡ 0
        → length screen ≡ height * row_length → offset + height * row_length ≤ length pixels
        → take (height * row_length) (drop offset pixels)
        ≡ shown_rows B8G8R8A8 (record { row = 0; column = 0; width = row_length; height = height }) row_length pixels row_length offset screen }
{}
