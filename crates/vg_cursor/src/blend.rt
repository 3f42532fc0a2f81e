//! A cursor over the pixels of a screen: the part that is on the screen, row by row and pixel by pixel.

ghost use Rattle.std.specs.Prelude.{◌≡◌, ◌+◌, ◌*◌, ◌%◌, ◌≤◌, length};
ghost use Rattle.vg_cursor.specs.Blended.{blended, mixed};
ghost use Rattle.vg_cursor.specs.Cursor.{IsWhole};
ghost use Rattle.vg_cursor.specs.Look.{cursor_like};
ghost use Rattle.vg_cursor.specs.RowsWithin.{row_over, rows_over};

use crate::look::Look;
use crate::span::span_of;
use vg_places::Area;

/// How many bytes a row of an image has.
const IMAGE_ROW: usize = 256;

impl<'a> Look<'a> {
    /// Blends a cursor that looks so into the pixels of a screen of this size in pixels, row by row, four bytes each, as
    /// B, G, R and A. What the cursor doesn't cover stays, and all of it where the cursor isn't shown.
    pub fn blend(&self, width: u32, height: u32, pixels: &mut [u8])
        requires whole { IsWhole (cursor_like self.now) }
        requires length { length pixels.old ≡ 4 * width * height }
        ensures { pixels.new ≡ blended (cursor_like self.now) width pixels.old }
    {
        if !self.visible {
            return;
        }
        let across = span_of(self.x, self.hot_x, width);
        let down = span_of(self.y, self.hot_y, height);
        let area = Area {
            row: down.first as usize,
            column: 4 * across.first as usize,
            width: 4 * across.count as usize,
            height: down.count as usize,
        };
        let from = IMAGE_ROW * down.from as usize + 4 * across.from as usize;
        blend_rows(pixels, 4 * width as usize, &area, self.image, from);
    }
}

/// Blends rows of an image into a rectangle of a screen, both in bytes. The first row of pixels begins at `from`.
fn blend_rows(screen: &mut [u8], row_length: usize, area: &Area, image: &[u8], from: usize)
    requires whole { area.now.width % 4 ≡ 0 }
    requires columns { area.now.column + area.now.width ≤ row_length }
    requires rows { (area.now.row + area.now.height) * row_length ≤ length screen.old }
    requires image { length image.now ≡ 16384 }
    requires source { from + area.now.width + 256 * area.now.height ≤ 16640 }
    ensures { screen.new ≡ rows_over area.now row_length image.now from screen.old }
{
    let width = area.width;
    let mut to = area.row * row_length + area.column;
    for i in 0..area.height {
        let start = from + IMAGE_ROW * i;
        blend_row(&mut screen[to..to + width], &image[start..start + width]);
        to += row_length;
    }
}

/// Blends a row of an image's pixels into as many pixels of a screen.
fn blend_row(screen: &mut [u8], image: &[u8])
    requires length { length screen.old ≡ length image.now }
    requires whole { length image.now % 4 ≡ 0 }
    ensures { screen.new ≡ row_over image.now screen.old }
{
    for i in 0..image.len() / 4 {
        let at = 4 * i;
        let a = image[at + 3];
        let pixel = [
            mixed(image[at], a, screen[at]),
            mixed(image[at + 1], a, screen[at + 1]),
            mixed(image[at + 2], a, screen[at + 2]),
            255,
        ];
        screen[at..at + 4].copy_from_slice(&pixel);
    }
}

/// A colour byte of an image over one of a screen, where the image's pixel has this A.
fn mixed(source: u8, a: u8, screen: u8) -> u8
    ensures { result ≡ mixed source a screen }
{
    let sum = u32::from(source) * u32::from(a) + u32::from(screen) * u32::from(255 - a) + 127;
    (sum / 255) as u8
}
