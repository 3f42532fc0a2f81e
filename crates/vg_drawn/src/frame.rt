//! The clients of a frame: those of its screen, with the cursor over it.

ghost use Rattle.std.specs.Prelude.{◌≡◌, ◌<◌, ◌+◌, ◌*◌, ◌^◌, ◌/◌, ◌%◌, true, IfSome, length, slice_index};
ghost use Rattle.vg_cursor.specs.Blended.{image_place};
ghost use Rattle.vg_cursor.specs.Look.{cursor_like};
ghost use Rattle.vg_drawn.specs.Frames.{GoesOn, frame_word, on_image, over_by, row_by, row_word};
ghost use Rattle.vg_drawn.specs.Words.{union_below, word_of};

use crate::bytes::{union, word_of};
use vg_cursor::Look;

/// The clients of a frame of a screen of this size in pixels, with a cursor over it that looks so, as a set. Each byte of screen and
/// image is the number of the client who stored it.
pub(crate) fn frame_clients(look: &Look<'_>, width: u32, height: u32, screen: &[u8]) -> u64
    requires whole { length screen.now ≡ 4 * width * height }
    ensures { result ≡ union_below (frame_word (cursor_like look.now) width screen.now) (length screen.now) }
{
    if !look.visible {
        return union(0, screen);
    }
    with_image(look, width, height, screen)
}

fn with_image(look: &Look<'_>, width: u32, height: u32, screen: &[u8]) -> u64
    requires whole { length screen.now ≡ 4 * width * height }
    requires shown { look.now.visible ≡ true }
    ensures { result ≡ union_below (frame_word (cursor_like look.now) width screen.now) (length screen.now) }
{
    let stride = 4 * width as usize;
    let mut all = 0;
    let mut from = 0;
    for y in 0..height {
        all = row(all, look, y, &screen[from..from + stride]);
        from += stride;
    }
    all
}

/// Those so far, and those of a row of the screen.
fn row(all: u64, look: &Look<'_>, y: u32, bytes: &[u8]) -> u64
    ensures { GoesOn all (length bytes.now) (row_word (cursor_like look.now) y (λ c. word_of (slice_index bytes.now c))) result }
{
    match on_image(y as usize, look.hot_y, look.y) {
        Some(j) => covered(all, look, j, bytes),
        None => union(all, bytes),
    }
}

/// Those so far, and those of a row of the screen over which row j of the image lies.
fn covered(all: u64, look: &Look<'_>, j: usize, bytes: &[u8]) -> u64
    requires { j < 64 }
    ensures { GoesOn all (length bytes.now) (row_by (Some j) (cursor_like look.now) (λ c. word_of (slice_index bytes.now c))) result }
{
    let mut sum = all;
    for (c, byte) in bytes.iter().enumerate() {
        sum |= over(column_over(look, c), j, c % 4, word_of(*byte), look.image);
    }
    sum
}

/// The image's column over the pixel of byte c of a row.
fn column_over(look: &Look<'_>, c: usize) -> Option<usize>
    ensures value { result ≡ on_image (image_place look.now.x look.now.hot_x (c / 4)) }
    ensures small { IfSome result (λ i. i < 64) }
{
    on_image(c / 4, look.hot_x, look.x)
}

/// The word of byte c of a pixel, with the image's over it where this is its column.
fn over(column: Option<usize>, j: usize, c: usize, screen: u64, image: &[u8]) -> u64
    requires j { j < 64 }
    requires c { c < 4 }
    requires column { IfSome column (λ i. i < 64) }
    ensures { result ≡ over_by column j c (λ k. word_of (slice_index image.now k)) screen }
{
    let Some(i) = column else {
        return screen;
    };
    if c == 3 {
        return 0;
    }
    let pixel = 4 * (64 * j + i);
    screen | (word_at(image, pixel + c) | word_at(image, pixel + 3))
}

fn word_at(image: &[u8], place: usize) -> u64
    ensures { result ≡ word_of (slice_index image.now place) }
{
    match image.get(place) {
        Some(byte) => word_of(*byte),
        None => 0,
    }
}

/// The image's row or column over this one of the screen, if it has it.
fn on_image(place: usize, hot: u32, position: i32) -> Option<usize>
    requires { place < 2 ^ 62 }
    ensures value { result ≡ on_image (image_place position hot place) }
    ensures small { IfSome result (λ i. i < 64) }
{
    let i = place as i64 + i64::from(hot) - i64::from(position);
    if 0 <= i && i < 64 {
        Some(i as usize)
    } else {
        None
    }
}
