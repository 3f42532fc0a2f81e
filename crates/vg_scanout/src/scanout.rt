//! The state of all scanouts, and the calls that change it.

ghost use Rattle.std.specs.Prelude.{◌≡◌, ◌<◌, ◌≤◌, List, [], None, All, IfOk, OnErr, OnOk, length, map, replicate, option_copied};
ghost use Rattle.vg_cursor.specs.declared.cursor.Cursor.{Cursor};
ghost use Rattle.vg_cursor.specs.Cursor.{IsWhole, cursor_of};
ghost use Rattle.vg_cursor.specs.Look.{cursor_like};
ghost use Rattle.vg_scanout.specs.Fits.{FitSurface, IsScreen};
ghost use Rattle.vg_scanout.specs.Panels.{unbound_panel};
ghost use Rattle.vg_scanout.specs.Scanout.{bind, binding_at, flush, screen_pixels, snap, unbound, unbound_from};

use crate::flush::{Flush, bytes_after, frame_of, make_frames, reground_each};
use crate::panel::{Ground, Panel};
use crate::taken::own_grounds;
use std::alloc::{AllocError, Global};
use std::marker::Model;
use std::mem;
use vg_cursor::{Cursors, Look};
use vg_formats::{Format, Rect, pixel_bytes};
use vg_shared_bytes::Strips;
use vg_wire::kinds::ERR_OUT_OF_MEMORY;

/// How many bytes one screen may have.
const MOST_SCREEN_BYTES: u64 = 33_554_432;

/// How many bytes all frames of a run may have.
const MOST_FRAME_BYTES: u64 = 268_435_456;

/// What a scanout shows: a rectangle of a surface of `width` by `height` pixels, four bytes each, whose rows stand
/// `stride` bytes apart and whose first byte is number `offset` of its resource.
#[derive(Clone, Copy, Debug)]
pub struct Binding {
    pub resource: u32,
    pub rect: Rect,
    pub width: u32,
    pub height: u32,
    pub format: Format,
    pub stride: u32,
    pub offset: u32,
}

/// One picture of a scanout.
#[derive(Drop)]
pub struct Frame {
    pub scanout: u32,
    /// In pixels.
    pub width: u32,
    /// In pixels.
    pub height: u32,
    /// The number of the entry that made it.
    pub entry: u64,
    /// Rows of four bytes a pixel, in the order blue, green, red, alpha. Strips that stay as they were are shared with the frames
    /// before.
    pub pixels: Strips,
}

/// The state of all scanouts.
#[derive(Drop)]
pub struct Scanouts {
    panels: Vec<Option<Panel>>,
    frames: Vec<Frame>,
    /// How many bytes the frames have.
    bytes: u64,
}

impl Model for Scanouts {
    ghost use Rattle.std.specs.Prelude.{◌≡◌, ◌≤◌, ◌<◌, ◌^◌, length};
    ghost use Rattle.vg_scanout.specs.Panels.{ArePanels, screens_in};
    ghost use Rattle.vg_scanout.specs.Scanout.{ScanoutState, frame_bytes};

    ghost Value = { ScanoutState };

    ghost view = { λ s. record { screens = screens_in s.frames.items s.panels.items; frames = s.frames.items } };

    ghost invariant = { λ s. (s.bytes ≡ frame_bytes s.frames.items) × (s.bytes ≤ 268435456) × ArePanels s.frames.items s.panels.items × (length s.panels.items < 2 ^ 32) };
}

impl Scanouts {
    /// So many scanouts, all of them disabled.
    pub fn new(alloc: Global, count: u32) -> Result<Scanouts, AllocError>
        ensures { IfOk result (λ scanouts. scanouts ≡ record { screens = replicate count None; frames = [] }) }
    {
        let mut panels = Vec::new(alloc);
        for _panel in 0..count {
            panels.push(None)?;
        }
        Ok(Scanouts {
            panels,
            frames: Vec::new(alloc),
            bytes: 0,
        })
    }

    /// Binds a scanout, or answers the code of its refusal. All bytes of its screen are 0 then.
    #[tactic(auto, unfolding(crate::specs::Scanout::bind, crate::specs::Scanout::fresh_screen))]
    pub fn bind(&mut self, scanout: u32, binding: Binding) -> Result<(), u32>
        requires scanout { scanout < length self.old.screens }
        ensures { (self.new, result) ≡ bind scanout binding self.old }
    {
        let size = pixel_bytes(binding.rect.width, binding.rect.height);
        if size > u128::from(MOST_SCREEN_BYTES) {
            return Err(ERR_OUT_OF_MEMORY);
        }
        self.panels[scanout as usize] = Some(Panel {
            binding,
            base: Ground::Blank,
        });
        Ok(())
    }

    /// Disables a scanout.
    pub fn unbind(&mut self, scanout: u32)
        requires scanout { scanout < length self.old.screens }
        ensures { self.new ≡ unbound scanout self.old }
    {
        self.panels[scanout as usize] = None;
    }

    /// Disables each scanout that is bound to the resource.
    pub fn unbind_resource(&mut self, resource: u32)
        ensures { self.new ≡ unbound_from resource self.old }
    {
        disable_each(self.panels.as_mut_slice(), resource);
    }

    /// What a scanout is bound to. None where it is disabled, or where there is no such scanout.
    pub fn binding(&self, scanout: u32) -> Option<&Binding>
        ensures { option_copied result ≡ binding_at scanout self.now }
    {
        match self.panels.get(scanout as usize) {
            Some(Some(panel)) => Some(&panel.binding),
            _ => None,
        }
    }

    /// Shows a rectangle of the resource, whose bytes are `surface`, on each scanout that is bound to it and has a
    /// pixel of it, and makes a frame of each, in which its cursor is blended, or answers the code of its refusal. The
    /// frames have the number `entry`.
    #[tactic(auto, unfolding(crate::specs::Scanout::flush))]
    pub fn flush(
        &mut self,
        alloc: Global,
        entry: u64,
        resource: u32,
        rect: &Rect,
        surface: &[u8],
        cursors: &Cursors,
    ) -> Result<Result<(), u32>, AllocError>
        requires cursors { length self.old.screens ≤ length cursors.now }
        requires surface { All (FitSurface resource (length surface.now)) self.old.screens }
        ensures done { IfOk result (λ done. (self.new, done) ≡ flush entry resource rect.now surface.now cursors.now self.old) }
        ensures err { OnErr result (self.new ≡ self.old) }
    {
        let panels = self.panels.as_slice();
        let bytes = bytes_after(panels, resource, rect, self.bytes);
        if bytes > MOST_FRAME_BYTES {
            return Ok(Err(ERR_OUT_OF_MEMORY));
        }
        let flush = Flush {
            entry,
            resource,
            rect,
            surface,
            cursors,
            before: self.frames.as_slice(),
        };
        let (mut frames, mut grounds) = make_frames(alloc, &flush, panels)?;
        // What can fail comes before the first screen changes.
        self.frames.append(&mut frames)?;
        reground_each(self.panels.as_mut_slice(), grounds.as_mut_slice());
        self.bytes = bytes;
        Ok(Ok(()))
    }

    /// Makes a frame of a scanout's screen as it is, with a cursor that looks so, if the scanout is bound, or answers the code of
    /// its refusal. The frame has the number `entry`, and shares with the screen what the cursor doesn't cover.
    pub fn snap(
        &mut self,
        alloc: Global,
        entry: u64,
        scanout: u32,
        look: &Look,
    ) -> Result<Result<(), u32>, AllocError>
        requires scanout { scanout < length self.old.screens }
        requires look { IsWhole (cursor_like look.now) }
        ensures done { IfOk result (λ done. (cursors : List Cursor) → cursor_of cursors scanout ≡ cursor_like look.now → (self.new, done) ≡ snap entry cursors scanout self.old) }
        ensures err { OnErr result (self.new ≡ self.old) }
    {
        let Some(panel) = &self.panels[scanout as usize] else {
            return Ok(Ok(()))
        };
        let bytes = self.bytes + panel.size();
        if bytes > MOST_FRAME_BYTES {
            return Ok(Err(ERR_OUT_OF_MEMORY));
        }
        let frame = frame_of(alloc, entry, scanout, panel, look, self.frames.as_slice())?;
        self.frames.push(frame)?;
        self.bytes = bytes;
        Ok(Ok(()))
    }

    /// A copy of a scanout's screen as it is, without a cursor: rows of four bytes a pixel. Nothing where it is disabled, or where
    /// there is no such scanout.
    pub fn screen_pixels(&self, alloc: Global, scanout: u32) -> Result<Vec<u8>, AllocError>
        ensures { IfOk result (λ pixels. pixels.items ≡ screen_pixels scanout self.now) }
    {
        match self.panels.get(scanout as usize) {
            Some(Some(panel)) => panel.pixels(alloc, self.frames.as_slice()),
            _ => Ok(Vec::new(alloc)),
        }
    }

    /// A law, and no work: each screen has the pixels of its rectangle.
    pub fn are_screens(&self)
        ensures { All IsScreen self.now.screens }
    {
        let _ = &self.panels;
    }

    /// The frames, in the order in which they were made.
    pub fn frames(&self) -> &[Frame]
        ensures { result.now ≡ self.now.frames }
    {
        self.frames.as_slice()
    }

    /// Gives the frames, in the order in which they were made, and leaves none; the screens stay. How many bytes the frames of a run
    /// may have is counted of those that there are, so there is room for as many bytes again.
    pub fn take_frames(&mut self, alloc: Global) -> Result<Vec<Frame>, AllocError>
        ensures frames { IfOk result (λ frames. frames.items ≡ self.old.frames) }
        ensures done { OnOk result (self.new ≡ record self.old { frames = [] }) }
        ensures err { OnErr result (self.new ≡ self.old) }
    {
        // What can fail comes before the first screen changes.
        let mut grounds = own_grounds(alloc, self.panels.as_slice(), self.frames.as_slice())?;
        reground_each(self.panels.as_mut_slice(), grounds.as_mut_slice());
        self.bytes = 0;
        Ok(mem::replace(&mut self.frames, Vec::new(alloc)))
    }

    /// The frames, which the scanouts give up.
    pub fn into_frames(self) -> Vec<Frame>
        ensures { result.items ≡ self.frames }
    {
        self.frames
    }
}

/// Disables each of the scanouts that is bound to the resource.
fn disable_each(panels: &mut [Option<Panel>], resource: u32)
    ensures { panels.new ≡ map (unbound_panel resource) panels.old }
{
    for i in 0..panels.len() {
        disable(&mut panels[i], resource);
    }
}

fn disable(panel: &mut Option<Panel>, resource: u32)
    ensures { panel.new ≡ unbound_panel resource panel.old }
{
    let bound = match panel {
        Some(panel) => panel.binding.resource == resource,
        None => false,
    };
    if bound {
        *panel = None;
    }
}
