//! Rectangles of a list that is laid out in rows, one row after another.

ghost use Rattle.std.specs.Prelude.{◌≡◌, ◌≢◌, ℕ, ◌+◌, ◌<◌, ◌≤◌, List, Some, length, slice_get};
ghost use Rattle.vg_places.specs.declared.rectangles.Area.{Area};
ghost use Rattle.vg_places.specs.Rectangles.{filled, place_of};

/// A rectangle of a list that is laid out in rows: its first row, its first place in each of its rows, and how
/// many places and rows it has. It is empty where one of these two is 0.
#[derive(Clone, Copy, Debug, PartialEq, Eq)]
pub struct Area {
    pub row: usize,
    pub column: usize,
    pub width: usize,
    pub height: usize,
}

/// A law, and no work: a list has as many places after a rectangle was filled, each place of the rectangle has
/// its value, and every other place is as before.
pub fn fill_at_each_place()
    ensures length { (area : Area) (row_length : ℕ) (value : ℕ → ℕ → ℕ) (old : List ℕ)
        → length (filled area row_length value old) ≡ length old }
    ensures inside { (area : Area) (row_length : ℕ) (value : ℕ → ℕ → ℕ) (old : List ℕ) (i c : ℕ)
        → area.column + area.width ≤ row_length
        → i < area.height → c < area.width → place_of area row_length i c < length old
        → slice_get (filled area row_length value old) (place_of area row_length i c) ≡ Some (value i c) }
    ensures outside { (area : Area) (row_length : ℕ) (value : ℕ → ℕ → ℕ) (old : List ℕ) (place : ℕ)
        → ((i c : ℕ) → i < area.height → c < area.width → place ≢ place_of area row_length i c)
        → slice_get (filled area row_length value old) place ≡ slice_get old place }
{}
