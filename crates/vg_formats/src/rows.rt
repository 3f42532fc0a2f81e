//! Rows of pixels as they are shown.

ghost use Rattle.std.specs.Prelude.{◌≡◌, ℕ, ◌+◌, ◌-◌, ◌*◌, ◌%◌, ◌<◌, ◌≤◌, length};
ghost use Rattle.vg_formats.specs.Shown.{shown_row, shown_rows};

use crate::format::Format;
use crate::order::{Abgr, Argb, Bgrx, Order, Rgba, Rgbx, Xbgr, Xrgb};
use vg_places::Area;

/// Writes pixels of four bytes each as they are shown, each as its bytes B, G, R and A. A is 255 where the
/// format has X.
pub fn show_row(format: Format, shown: &mut [u8], pixels: &[u8])
    requires length { length shown.old ≡ length pixels.now }
    requires whole { length pixels.now % 4 ≡ 0 }
    ensures { shown.new ≡ shown_row format pixels.now }
{
    match format {
        Format::B8G8R8A8 => shown.copy_from_slice(pixels),
        Format::B8G8R8X8 => show_each::<Bgrx>(shown, pixels),
        Format::A8R8G8B8 => show_each::<Argb>(shown, pixels),
        Format::X8R8G8B8 => show_each::<Xrgb>(shown, pixels),
        Format::R8G8B8A8 => show_each::<Rgba>(shown, pixels),
        Format::X8B8G8R8 => show_each::<Xbgr>(shown, pixels),
        Format::A8B8G8R8 => show_each::<Abgr>(shown, pixels),
        Format::R8G8B8X8 => show_each::<Rgbx>(shown, pixels),
    }
}

fn show_each<O: Order>(shown: &mut [u8], pixels: &[u8])
    requires length { length shown.old ≡ length pixels.now }
    requires whole { length pixels.now % 4 ≡ 0 }
    ensures { shown.new ≡ shown_row O.format pixels.now }
{
    for i in 0..pixels.len() / 4 {
        let at = 4 * i;
        let pixel = O::shown([pixels[at], pixels[at + 1], pixels[at + 2], pixels[at + 3]]);
        shown[at..at + 4].copy_from_slice(&pixel);
    }
}

/// Writes rows of pixels of four bytes each as they are shown into the rectangle `area` of a screen with
/// `row_length` bytes a row, where the rectangle too is in bytes. The first row of pixels starts at `offset`,
/// and each next one `stride` bytes further. An empty rectangle changes nothing, whatever the pixels, the
/// offset and the stride.
pub fn show_rows(
    format: Format,
    screen: &mut [u8],
    row_length: usize,
    area: &Area,
    pixels: &[u8],
    stride: usize,
    offset: usize,
)
    requires whole { area.now.width % 4 ≡ 0 }
    requires columns { area.now.column + area.now.width ≤ row_length }
    requires rows { (area.now.row + area.now.height) * row_length ≤ length screen.old }
    requires source { 0 < area.now.width → 0 < area.now.height
        → offset + stride * (area.now.height - 1) + area.now.width ≤ length pixels.now }
    ensures { screen.new ≡ shown_rows format area.now row_length pixels.now stride offset screen.old }
{
    if area.width == 0 || area.height == 0 {
        return;
    }
    show_each_row(format, screen, row_length, area, pixels, stride, offset);
}

fn show_each_row(
    format: Format,
    screen: &mut [u8],
    row_length: usize,
    area: &Area,
    pixels: &[u8],
    stride: usize,
    offset: usize,
)
    requires whole { area.now.width % 4 ≡ 0 }
    requires columns { area.now.column + area.now.width ≤ row_length }
    requires rows { (area.now.row + area.now.height) * row_length ≤ length screen.old }
    requires source { (i : ℕ) → i < area.now.height → offset + stride * i + area.now.width ≤ length pixels.now }
    ensures { screen.new ≡ shown_rows format area.now row_length pixels.now stride offset screen.old }
{
    let width = area.width;
    let mut to = area.row * row_length + area.column;
    for i in 0..area.height {
        let from = offset + stride * i;
        show_row(
            format,
            &mut screen[to..to + width],
            &pixels[from..from + width],
        );
        to += row_length;
    }
}
