//! The cursor of each scanout: an image, whether it is shown, and where (VIRTIO 1.2, 5.7.6.10).

ghost use Rattle.std.specs.Prelude.{◌≡◌, ◌<◌, IfOk, length, replicate};
ghost use Rattle.vg_cursor.specs.Cursor.{IsWhole, changed, cursor_of, hidden_at, placed_at, shown_as, unset};
ghost use Rattle.vg_cursor.specs.Look.{cursor_like};

use crate::look::Look;
use std::alloc::{AllocError, Global};
use std::marker::Model;
use vg_list::Seq;
use vg_places::zeros;

/// How many bytes an image has: 64 rows of 64 pixels, four bytes each.
const IMAGE_BYTES: usize = 16_384;

/// The cursor of a scanout: whether it is shown; its image, 64 rows of 64 pixels with their bytes B, G, R and A;
/// its position in pixels, which is where its hot spot stands on the screen; and the hot spot in the image.
#[derive(Debug, Drop)]
pub struct Cursor {
    pub visible: bool,
    pub image: Seq<u8>,
    pub x: i32,
    pub y: i32,
    pub hot_x: u32,
    pub hot_y: u32,
}

/// The cursors by their scanouts.
#[derive(Debug, Drop)]
pub struct Cursors {
    cursors: Vec<Cursor>,
}

impl Model for Cursors {
    ghost use Rattle.std.specs.Prelude.{List};
    ghost use Rattle.std.specs.List.{All};
    ghost use Rattle.vg_cursor.specs.declared.cursor.Cursor.{Cursor};
    ghost use Rattle.vg_cursor.specs.Cursor.{IsWhole};

    ghost Value = { List Cursor };

    ghost view = { λ c. c.cursors.items };

    ghost invariant = { λ c. All IsWhole c.cursors.items };
}

impl Cursors {
    /// The cursors of this many scanouts: not shown, with an image of zeros, at 0, 0. Takes all memory that they
    /// ever need.
    pub fn new(alloc: Global, count: u32) -> Result<Cursors, AllocError>
        ensures { IfOk result (λ cursors. cursors ≡ replicate count unset) }
    {
        let mut cursors = Vec::new(alloc);
        for _cursor in 0..count {
            cursors.push(unset(alloc, IMAGE_BYTES)?)?;
        }
        Ok(Cursors { cursors })
    }

    /// Shows this image with this hot spot at this position (UPDATE_CURSOR with a resource).
    pub fn update(&mut self, scanout: u32, image: &[u8], x: i32, y: i32, hot_x: u32, hot_y: u32)
        requires scanout { scanout < length self.old }
        requires image { length image.now ≡ 16384 }
        requires hot_x { hot_x < 64 }
        requires hot_y { hot_y < 64 }
        ensures { self.new ≡ changed (shown_as image.now x y hot_x hot_y) scanout self.old }
    {
        show(
            &mut self.cursors[scanout as usize],
            image,
            x,
            y,
            hot_x,
            hot_y,
        );
    }

    /// Hides the cursor, at this position (UPDATE_CURSOR with no resource).
    pub fn hide(&mut self, scanout: u32, x: i32, y: i32)
        requires scanout { scanout < length self.old }
        ensures { self.new ≡ changed (hidden_at x y) scanout self.old }
    {
        let cursor = &mut self.cursors[scanout as usize];
        cursor.visible = false;
        cursor.x = x;
        cursor.y = y;
    }

    /// Changes the position alone, also of a hidden cursor (MOVE_CURSOR).
    pub fn place(&mut self, scanout: u32, x: i32, y: i32)
        requires scanout { scanout < length self.old }
        ensures { self.new ≡ changed (placed_at x y) scanout self.old }
    {
        let placed = &mut self.cursors[scanout as usize];
        placed.x = x;
        placed.y = y;
    }

    /// Whether the cursor is shown.
    pub fn visible(&self, scanout: u32) -> bool
        requires scanout { scanout < length self.now }
        ensures { result ≡ (cursor_of self.now scanout).visible }
    {
        self.cursors[scanout as usize].visible
    }

    /// How the cursor looks.
    pub fn look(&self, scanout: u32) -> Look<'_>
        requires scanout { scanout < length self.now }
        ensures look { cursor_like result ≡ cursor_of self.now scanout }
        ensures whole { IsWhole (cursor_like result) }
    {
        look_of(&self.cursors[scanout as usize])
    }
}

fn look_of(cursor: &Cursor) -> Look<'_>
    ensures { cursor_like result ≡ cursor.now }
{
    Look {
        visible: cursor.visible,
        image: cursor.image.as_slice(),
        x: cursor.x,
        y: cursor.y,
        hot_x: cursor.hot_x,
        hot_y: cursor.hot_y,
    }
}

/// A cursor that was never set.
fn unset(alloc: Global, size: usize) -> Result<Cursor, AllocError>
    requires { size ≡ 16384 }
    ensures { IfOk result (λ cursor. cursor ≡ unset) }
{
    let image = Seq::from_vec(zeros(alloc, size)?);
    Ok(Cursor {
        visible: false,
        image,
        x: 0,
        y: 0,
        hot_x: 0,
        hot_y: 0,
    })
}

fn show(cursor: &mut Cursor, image: &[u8], x: i32, y: i32, hot_x: u32, hot_y: u32)
    requires { length cursor.old.image ≡ length image.now }
    ensures { cursor.new ≡ shown_as image.now x y hot_x hot_y cursor.old }
{
    cursor.image.as_mut_slice().copy_from_slice(image);
    cursor.visible = true;
    cursor.x = x;
    cursor.y = y;
    cursor.hot_x = hot_x;
    cursor.hot_y = hot_y;
}
