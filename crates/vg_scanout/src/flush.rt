//! The frames that a flush makes, and what the screens stand on after it.

ghost use Rattle.std.specs.Prelude.{◌≡◌, ◌<◌, ◌≤◌, ◌+◌, ◌-◌, ◌*◌, ◌^◌, ◌++◌, true, List, [], ◌∷◌, Some, None, All, IfOk, if◌then◌else◌, drop, length, min, take};
ghost use Rattle.vg_cursor.specs.Blended.{blended};
ghost use Rattle.vg_cursor.specs.declared.cursor.Cursor.{Cursor};
ghost use Rattle.vg_cursor.specs.Cursor.{IsWhole, cursor_of};
ghost use Rattle.vg_cursor.specs.Look.{cursor_like};
ghost use Rattle.vg_formats.specs.declared.format.Format.TheVariants.{B8G8R8A8};
ghost use Rattle.vg_formats.specs.Pixels.{HasPixels, LiesWithin};
ghost use Rattle.vg_scanout.specs.declared.panel.Ground.TheVariants as grounds;
ghost use Rattle.vg_scanout.specs.Fits.{FitSurface, FitsSurface};
ghost use Rattle.vg_scanout.specs.Panels.{AreAnew, AreRegrounded, ArePanels, IsAnew, IsPanel, IsSmall, bytes_made, bytes_of, pixels_in, regrounded, rows_touched, screen_in, screens_in};
ghost use Rattle.vg_scanout.specs.Scanout.{frame_of, new_frame, new_frames, pixels_with};

use crate::panel::{Ground, Panel};
use crate::scanout::{Binding, Frame};
use std::alloc::{AllocError, Global};
use vg_cursor::{Cursors, Look};
use vg_formats::{Format, Rect, rows_are_their_bytes, show_rows};
use vg_places::Area;
use vg_shared_bytes::Strips;

/// How many bytes all frames have after a flush, if they have so many before it; no more than a `u64` can tell.
pub(crate) fn bytes_after(panels: &[Option<Panel>], resource: u32, rect: &Rect, bytes: u64) -> u64
    requires { All IsSmall panels.now }
    ensures { result ≡ min (bytes + bytes_made resource rect.now panels.now) (2 ^ 64 - 1) }
{
    let mut sum = bytes;
    for panel in panels {
        sum = sum.saturating_add(bytes_of_frame(panel, resource, rect));
    }
    sum
}

/// How many bytes the frame has that a flush makes of a screen.
fn bytes_of_frame(panel: &Option<Panel>, resource: u32, rect: &Rect) -> u64
    requires { IsSmall panel.now }
    ensures { result ≡ bytes_of resource rect.now panel.now }
{
    let Some(panel) = panel else { return 0 };
    match panel.touched(resource, rect) {
        Some(_) => panel.size(),
        None => 0,
    }
}

/// What a flush shows, the same for each screen: a rectangle of a resource, whose bytes are `surface`, with the cursors, behind the
/// frames of before. The new frames have the number `entry`.
#[derive(Clone, Copy)]
pub(crate) struct Flush<'a> {
    pub entry: u64,
    pub resource: u32,
    pub rect: &'a Rect,
    pub surface: &'a [u8],
    pub cursors: &'a Cursors,
    pub before: &'a [Frame],
}

/// The frames that a flush makes, behind those of before, and of each scanout what its screen stands on then, if it is another
/// ground.
pub(crate) fn make_frames(
    alloc: Global,
    flush: &Flush,
    panels: &[Option<Panel>],
) -> Result<(Vec<Frame>, Vec<Option<Ground>>), AllocError>
    requires count { length panels.now < 2 ^ 32 }
    requires cursors { length panels.now ≤ length flush.now.cursors.now }
    requires panels { ArePanels flush.now.before.now panels.now }
    requires surface { All (FitSurface flush.now.resource (length flush.now.surface.now)) (screens_in flush.now.before.now panels.now) }
    ensures frames { IfOk result (λ made. made.0.items ≡ new_frames flush.now.entry flush.now.resource flush.now.rect.now flush.now.surface.now flush.now.cursors.now 0 (screens_in flush.now.before.now panels.now)) }
    ensures grounds { IfOk result (λ made. AreAnew flush.now.resource flush.now.rect.now flush.now.surface.now flush.now.before.now (flush.now.before.now ++ made.0.items) made.1.items panels.now) }
{
    let mut frames = Vec::new(alloc);
    let mut grounds = Vec::new(alloc);
    for i in 0..panels.len() {
        let ground = add_frame(alloc, flush, i as u32, &mut frames, &panels[i])?;
        grounds.push(ground)?;
    }
    Ok((frames, grounds))
}

/// Makes the frame that a flush makes of a screen, if it makes one, and gives what the screen stands on then.
fn add_frame(
    alloc: Global,
    flush: &Flush,
    scanout: u32,
    frames: &mut Vec<Frame>,
    panel: &Option<Panel>,
) -> Result<Option<Ground>, AllocError>
    requires scanout { scanout < length flush.now.cursors.now }
    requires panel { IsPanel flush.now.before.now panel.now }
    requires surface { FitSurface flush.now.resource (length flush.now.surface.now) (screen_in flush.now.before.now panel.now) }
    ensures frames { IfOk result (λ made. frames.new.items ≡ frames.old.items ++ new_frame flush.now.entry flush.now.resource flush.now.rect.now flush.now.surface.now flush.now.cursors.now scanout (screen_in flush.now.before.now panel.now)) }
    ensures regrounded { IfOk result (λ made. IsAnew flush.now.resource flush.now.rect.now flush.now.surface.now flush.now.before.now (flush.now.before.now ++ frames.new.items) made panel.now) }
{
    let Some(panel) = panel else { return Ok(None) };
    let Some(common) = panel.touched(flush.resource, flush.rect) else {
        return Ok(None)
    };
    let screen = screen_after(alloc, panel, &common, flush.surface, flush.before)?;
    let number = flush.before.len() + frames.len();
    let (frame, ground) = picture_of(
        alloc,
        flush.entry,
        scanout,
        number,
        &panel.binding,
        flush.cursors,
        screen,
    )?;
    frames.push(frame)?;
    Ok(Some(ground))
}

/// The pixels of a screen once this part of it is shown as the surface has it now. The strips in which nothing changed are those
/// in which they stood before.
fn screen_after(
    alloc: Global,
    panel: &Panel,
    part: &Rect,
    surface: &[u8],
    before: &[Frame],
) -> Result<Strips, AllocError>
    requires panel { IsPanel before.now (Some panel.now) }
    requires some { HasPixels part.now }
    requires within { LiesWithin part.now panel.now.binding.rect }
    requires surface { FitsSurface (length surface.now) panel.now.binding }
    ensures long { IfOk result (λ pixels. length pixels ≡ 4 * panel.now.binding.rect.width * panel.now.binding.rect.height) }
    ensures shown { IfOk result (λ pixels. pixels ≡ pixels_with panel.now.binding part.now surface.now (pixels_in before.now panel.now)) }
{
    let strips = panel.strips(before);
    if *part == panel.binding.rect && is_one_piece(&panel.binding) {
        // A law, and no work: the screen is that piece of the surface, whatever stood there before.
        rows_are_their_bytes();
        let piece = piece_of(&panel.binding, surface);
        let pixels = Strips::cut(alloc, piece, strips)?;
        return Ok(pixels);
    }
    if *part != panel.binding.rect {
        if let Some(strips) = strips {
            return screen_with(alloc, &panel.binding, part, surface, strips);
        }
    }
    let mut pixels = panel.under(alloc, before, part)?;
    show_part(&panel.binding, part, surface, pixels.as_mut_slice());
    Strips::cut(alloc, pixels.as_slice(), strips)
}

/// Whether the surface has a screen's pixels in one piece: they are shown as they are, and their rows follow each other.
fn is_one_piece(binding: &Binding) -> bool
    ensures { result ≡ true → (binding.now.format ≡ B8G8R8A8) × (binding.now.stride ≡ 4 * binding.now.rect.width) }
{
    match binding.format {
        Format::B8G8R8A8 => binding.stride / 4 == binding.rect.width && binding.stride % 4 == 0,
        _ => false,
    }
}

/// The piece of the surface that has a screen's pixels.
fn piece_of<'a>(binding: &Binding, surface: &'a [u8]) -> &'a [u8]
    requires { binding.now.offset + binding.now.stride * binding.now.rect.y + 4 * binding.now.rect.x + binding.now.stride * binding.now.rect.height ≤ length surface.now }
    ensures { result.now
        ≡ take (binding.now.stride * binding.now.rect.height) (drop (binding.now.offset + binding.now.stride * binding.now.rect.y + 4 * binding.now.rect.x) surface.now) }
{
    let rect = &binding.rect;
    let stride = binding.stride as usize;
    let start = binding.offset as usize + stride * rect.y as usize + 4 * rect.x as usize;
    let end = start + stride * rect.height as usize;
    &surface[start..end]
}

/// The pixels of a screen once this part of it is shown as the surface has it now. Only the rows that it touches are made.
fn screen_with(
    alloc: Global,
    binding: &Binding,
    part: &Rect,
    surface: &[u8],
    screen: &Strips,
) -> Result<Strips, AllocError>
    requires some { HasPixels part.now }
    requires within { LiesWithin part.now binding.now.rect }
    requires surface { FitsSurface (length surface.now) binding.now }
    requires pixels { length screen.now ≡ 4 * binding.now.rect.width * binding.now.rect.height }
    requires small { length screen.now ≤ 33554432 }
    ensures { IfOk result (λ pixels. pixels ≡ pixels_with binding.now part.now surface.now screen.now) }
{
    let row_length = 4 * binding.rect.width as usize;
    let from = row_length * (part.y - binding.rect.y) as usize;
    let to = from + row_length * part.height as usize;
    let mut rows = screen.part(alloc, from, to)?;
    show_part(&rows_of(binding, part), part, surface, rows.as_mut_slice());
    screen.with(alloc, from, rows.as_slice())
}

/// The binding of a screen's rows that this part of it touches.
fn rows_of(binding: &Binding, part: &Rect) -> Binding
    ensures { result ≡ rows_touched binding.now part.now }
{
    Binding {
        rect: Rect {
            y: part.y,
            height: part.height,
            ..binding.rect
        },
        ..*binding
    }
}

/// The frame of a screen of these pixels, with its cursor, and what the screen stands on where the frame has this number: the
/// frame, but where a cursor is in that.
fn picture_of(
    alloc: Global,
    entry: u64,
    scanout: u32,
    number: usize,
    binding: &Binding,
    cursors: &Cursors,
    screen: Strips,
) -> Result<(Frame, Ground), AllocError>
    requires scanout { scanout < length cursors.now }
    requires pixels { length screen ≡ 4 * binding.now.rect.width * binding.now.rect.height }
    ensures frame { IfOk result (λ made. made.0 ∷ [] ≡ frame_of entry cursors.now scanout (Some (record { binding = binding.now; pixels = screen }))) }
    ensures ground { IfOk result (λ made. made.1 ≡ (if (cursor_of cursors.now scanout).visible then grounds.Kept screen else grounds.Shared number)) }
{
    if !cursors.visible(scanout) {
        return Ok((
            framed(entry, scanout, binding, screen),
            Ground::Shared(number),
        ));
    }
    let pixels = with_cursor(alloc, &cursors.look(scanout), binding, &screen)?;
    Ok((
        framed(entry, scanout, binding, pixels),
        Ground::Kept(screen),
    ))
}

/// The frame of a screen with a cursor that looks so. The strips that the cursor doesn't cover are those in which the screen stands.
pub(crate) fn frame_of(
    alloc: Global,
    entry: u64,
    scanout: u32,
    panel: &Panel,
    look: &Look,
    frames: &[Frame],
) -> Result<Frame, AllocError>
    requires panel { IsPanel frames.now (Some panel.now) }
    requires look { IsWhole (cursor_like look.now) }
    ensures { IfOk result (λ frame. (cursors : List Cursor) → cursor_of cursors scanout ≡ cursor_like look.now
        → frame ∷ [] ≡ frame_of entry cursors scanout (screen_in frames.now (Some panel.now))) }
{
    let pixels = match panel.strips(frames) {
        Some(screen) => with_cursor(alloc, look, &panel.binding, screen)?,
        None => {
            let blank = panel.pixels(alloc, frames)?;
            let screen = Strips::cut(alloc, blank.as_slice(), None)?;
            with_cursor(alloc, look, &panel.binding, &screen)?
        }
    };
    Ok(framed(entry, scanout, &panel.binding, pixels))
}

/// The pixels of a screen, with a cursor that looks so in them. Only the rows that the cursor lies over are made.
fn with_cursor(
    alloc: Global,
    look: &Look,
    binding: &Binding,
    screen: &Strips,
) -> Result<Strips, AllocError>
    requires look { IsWhole (cursor_like look.now) }
    requires pixels { length screen.now ≡ 4 * binding.now.rect.width * binding.now.rect.height }
    ensures { IfOk result (λ pixels. pixels ≡ blended (cursor_like look.now) binding.now.rect.width screen.now) }
{
    if screen.len() == 0 {
        return screen.share(alloc);
    }
    let Some(rows) = look.rows(binding.rect.height) else {
        return screen.share(alloc)
    };
    let width = binding.rect.width;
    let row_length = 4 * width as usize;
    let from = row_length * rows.first as usize;
    let to = row_length * (rows.first as usize + rows.count as usize);
    let mut pixels = screen.part(alloc, from, to)?;
    rows.look.blend(width, rows.count, pixels.as_mut_slice());
    screen.with(alloc, from, pixels.as_slice())
}

/// A frame of a screen's size with these pixels.
fn framed(entry: u64, scanout: u32, binding: &Binding, pixels: Strips) -> Frame
    ensures { result ≡ record { scanout = scanout; width = binding.now.rect.width; height = binding.now.rect.height; entry = entry; pixels = pixels } }
{
    Frame {
        scanout,
        width: binding.rect.width,
        height: binding.rect.height,
        entry,
        pixels,
    }
}

/// Has each of the screens stand on its new ground, if it has one.
pub(crate) fn reground_each(panels: &mut [Option<Panel>], grounds: &mut [Option<Ground>])
    requires { length grounds.old ≡ length panels.old }
    ensures { AreRegrounded grounds.old panels.old panels.new }
{
    for i in 0..panels.len() {
        reground(&mut panels[i], grounds[i].take());
    }
}

fn reground(panel: &mut Option<Panel>, new: Option<Ground>)
    ensures { panel.new ≡ regrounded new panel.old }
{
    if let (Some(panel), Some(new)) = (panel, new) {
        panel.base = new;
    }
}

/// Shows this part of a screen as the surface has it now.
fn show_part(binding: &Binding, part: &Rect, surface: &[u8], pixels: &mut [u8])
    requires some { HasPixels part.now }
    requires within { LiesWithin part.now binding.now.rect }
    requires surface { FitsSurface (length surface.now) binding.now }
    requires pixels { length pixels.old ≡ 4 * binding.now.rect.width * binding.now.rect.height }
    ensures { pixels.new ≡ pixels_with binding.now part.now surface.now pixels.old }
{
    let area = Area {
        row: (part.y - binding.rect.y) as usize,
        column: 4 * (part.x - binding.rect.x) as usize,
        width: 4 * part.width as usize,
        height: part.height as usize,
    };
    let stride = binding.stride as usize;
    let offset = binding.offset as usize + stride * part.y as usize + 4 * part.x as usize;
    let row_length = 4 * binding.rect.width as usize;
    show_rows(
        binding.format,
        pixels,
        row_length,
        &area,
        surface,
        stride,
        offset,
    );
}
