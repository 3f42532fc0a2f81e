//! What holds of a screen with a cursor, pixel by pixel: the contract of a function that does nothing.

ghost use Rattle.std.specs.Prelude.{◌≡◌, ◌<◌, ℕ, ◌+◌, ◌*◌, true, false, pos, ◌+ℤ◌, ◌-ℤ◌, List, Some, length, slice_get, slice_index};
ghost use Rattle.vg_cursor.specs.declared.cursor.Cursor.{Cursor};
ghost use Rattle.vg_cursor.specs.Blended.{blended, over};

/// A law, and no work. Where the cursor is shown, pixel (i, j) of its image lies over pixel
/// (x - hot_x + i, y - hot_y + j) of the screen, where that one exists: each of its four bytes is that of the image
/// over the screen's. Each other pixel is as before, and so are all where the cursor is hidden.
pub fn cover_each_pixel()
    ensures covered { (cursor : Cursor) (width height : ℕ) (old : List ℕ) (i j x y c : ℕ)
        → cursor.visible ≡ true → length old ≡ 4 * width * height → x < width → y < height → i < 64 → j < 64 → c < 4
        → pos x ≡ cursor.x -ℤ pos cursor.hot_x +ℤ pos i → pos y ≡ cursor.y -ℤ pos cursor.hot_y +ℤ pos j
        → slice_get (blended cursor width old) (4 * (width * y + x) + c)
        ≡ Some (over cursor.image i j c (slice_index old (4 * (width * y + x) + c))) }
    ensures apart { (cursor : Cursor) (width height : ℕ) (old : List ℕ) (x y c : ℕ)
        → length old ≡ 4 * width * height → x < width → y < height → c < 4
        → ((i j : ℕ) → i < 64 → j < 64 → pos x ≡ cursor.x -ℤ pos cursor.hot_x +ℤ pos i → pos y ≡ cursor.y -ℤ pos cursor.hot_y +ℤ pos j → ⊥)
        → slice_get (blended cursor width old) (4 * (width * y + x) + c) ≡ slice_get old (4 * (width * y + x) + c) }
    ensures hidden { (cursor : Cursor) (width : ℕ) (old : List ℕ) → cursor.visible ≡ false → blended cursor width old ≡ old }
{}
