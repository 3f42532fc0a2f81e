//! How a cursor looks, or is to look.

ghost use Rattle.std.specs.Prelude.{◌≡◌, ◌*◌, ℕ, List, length, IfNone, IfSome};
ghost use Rattle.vg_cursor.specs.Blended.{blended};
ghost use Rattle.vg_cursor.specs.Cursor.{IsWhole};
ghost use Rattle.vg_cursor.specs.Look.{CoversRows, cursor_like, lowered};

use crate::span::span_of;

/// How a cursor looks: the parts of a [`Cursor`](crate::Cursor), with the image where it stands. So a screen can be seen with a
/// cursor before that is changed.
#[derive(Clone, Copy)]
pub struct Look<'a> {
    pub visible: bool,
    pub image: &'a [u8],
    pub x: i32,
    pub y: i32,
    pub hot_x: u32,
    pub hot_y: u32,
}

/// The rows of a screen that a cursor lies over: the first of them, how many there are, and how the cursor looks over a screen of
/// these rows alone.
#[derive(Clone, Copy)]
pub struct Rows<'a> {
    pub first: u32,
    pub count: u32,
    pub look: Look<'a>,
}

impl<'a> Look<'a> {
    /// The rows of a screen of this height, in pixels, that a cursor lies over that looks so. None where it lies over none, or isn't
    /// shown.
    pub fn rows(&self, height: u32) -> Option<Rows<'a>>
        requires whole { IsWhole (cursor_like self.now) }
        ensures none { IfNone result ((width : ℕ) (old : List ℕ) → length old ≡ 4 * width * height → blended (cursor_like self.now) width old ≡ old) }
        ensures covers { IfSome result (λ rows. CoversRows (cursor_like self.now) height rows.first rows.count) }
        ensures look { IfSome result (λ rows. cursor_like rows.look ≡ lowered rows.first (cursor_like self.now)) }
        ensures whole { IfSome result (λ rows. IsWhole (cursor_like rows.look)) }
    {
        let down = span_of(self.y, self.hot_y, height);
        if !self.visible || down.count == 0 {
            return None;
        }
        let y = self.hot_y as i32 - down.from as i32;
        Some(Rows {
            first: down.first,
            count: down.count,
            look: Look { y, ..*self },
        })
    }
}
