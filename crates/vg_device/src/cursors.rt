//! What the commands of the cursor queue do (VIRTIO 1.2, 5.7.6.10).

ghost use Rattle.std.specs.Prelude.{◌≡◌, ◌<◌, Some, None, IfOk, IfErr, length};
ghost use Rattle.vg_cursor.specs.Cursor.{IsWhole as IsWholeCursor, changed, cursor_of};
ghost use Rattle.vg_cursor.specs.Look.{cursor_like};
ghost use Rattle.vg_device.specs.FitsWithin.{IfDone, IfRefused, IfWant};
ghost use Rattle.vg_device.specs.ChangeWithin.{IsChange, IsImage, change_of, pointed_step};
ghost use Rattle.vg_device.specs.Step.{cursor_step, image_of, image_refusals, move_step};
ghost use Rattle.vg_refusals.specs.Refusals.{refusal_of};
ghost use Rattle.vg_resource.specs.Resource.{IsWhole, resource_at, resource_of};

use crate::device::Device;
use crate::stop::Stop;
use std::alloc::{AllocError, Global};
use vg_cursor::{Cursors, Look};
use vg_formats::show_row;
use vg_list::Seq;
use vg_places::zeros;
use vg_resource::Surface;
use vg_wire::kinds::{ERR_INVALID_PARAMETER, ERR_INVALID_RESOURCE_ID, ERR_INVALID_SCANOUT_ID};
use vg_wire_ext::Response;

/// How many rows an image has, and how many columns, in pixels.
const IMAGE_SIDE: u32 = 64;

/// What UPDATE_CURSOR asks for: the pixels of a resource at a position of a scanout, and the hot spot in them.
#[derive(Clone, Copy)]
pub(crate) struct Update {
    pub scanout: u32,
    pub x: i32,
    pub y: i32,
    pub resource: u32,
    pub hot_x: u32,
    pub hot_y: u32,
}

/// What a command does to a cursor: an image of rows of 64 pixels, four bytes each, a position, and the hot spot in the image.
#[derive(Drop)]
pub(crate) enum Change {
    Show {
        image: Seq<u8>,
        x: i32,
        y: i32,
        hot_x: u32,
        hot_y: u32,
    },
    Hide {
        x: i32,
        y: i32,
    },
    Place {
        x: i32,
        y: i32,
    },
}

impl Device {
    /// Shows a resource's pixels as they are now, or hides the cursor with resource 0 (UPDATE_CURSOR).
    pub(crate) fn update_cursor(&mut self, alloc: Global, update: &Update) -> Result<Response, Stop>
        ensures step { IfDone result (λ response. cursor_step self.old update.now.scanout update.now.x update.now.y update.now.resource update.now.hot_x update.now.hot_y ≡ (self.new, response)) }
        ensures err { IfWant result (self.new ≡ self.old) }
    {
        let Update {
            scanout,
            x,
            y,
            resource,
            hot_x,
            hot_y,
        } = *update;
        if self.setup.displays.len() <= scanout as usize {
            return Err(Stop::Refused(ERR_INVALID_SCANOUT_ID));
        }
        if resource == 0 {
            return self.point(alloc, scanout, &Change::Hide { x, y });
        }
        if self.blobs.has(resource) {
            return Err(Stop::Refused(ERR_INVALID_PARAMETER));
        }
        let image = self.image(alloc, resource, hot_x, hot_y)?;
        let change = Change::Show {
            image: Seq::from_vec(image),
            x,
            y,
            hot_x,
            hot_y,
        };
        self.point(alloc, scanout, &change)
    }

    /// Moves a cursor, also one that is hidden (MOVE_CURSOR).
    pub(crate) fn move_cursor(
        &mut self,
        alloc: Global,
        scanout: u32,
        x: i32,
        y: i32,
    ) -> Result<Response, Stop>
        ensures step { IfDone result (λ response. move_step self.old scanout x y ≡ (self.new, response)) }
        ensures err { IfWant result (self.new ≡ self.old) }
    {
        if self.setup.displays.len() <= scanout as usize {
            return Err(Stop::Refused(ERR_INVALID_SCANOUT_ID));
        }
        self.point(alloc, scanout, &Change::Place { x, y })
    }

    /// Changes a cursor, and makes a frame of its scanout as it looks then, if that is bound. What can fail comes before the change.
    fn point(&mut self, alloc: Global, scanout: u32, change: &Change) -> Result<Response, Stop>
        requires scanout { scanout < length self.old.setup.displays }
        requires change { IsChange change.now }
        ensures step { IfDone result (λ response. pointed_step self.old scanout (change_of change.now) ≡ (self.new, response)) }
        ensures err { IfWant result (self.new ≡ self.old) }
    {
        let look = look_after(&self.cursors, scanout, change);
        if let Err(code) = self.scanouts.snap(alloc, self.entries, scanout, &look)? {
            return Err(Stop::Refused(code));
        }
        change_cursor(&mut self.cursors, scanout, change);
        Ok(Response::Nodata)
    }

    /// A resource's pixels as an image with this hot spot, or why there is none.
    fn image(&self, alloc: Global, resource: u32, hot_x: u32, hot_y: u32) -> Result<Vec<u8>, Stop>
        ensures done { IfOk result (λ image. IsImage (resource_at resource self.now.resources) hot_x hot_y image.items) }
        ensures refused { IfErr result (IfRefused (λ code. refusal_of (image_refusals (resource_at resource self.now.resources) hot_x hot_y) ≡ Some code)) }
    {
        let Some(surface) = self.resources.get(resource) else {
            return Err(Stop::Refused(ERR_INVALID_RESOURCE_ID));
        };
        if surface.width != IMAGE_SIDE
            || surface.height != IMAGE_SIDE
            || hot_x >= IMAGE_SIDE
            || hot_y >= IMAGE_SIDE
        {
            return Err(Stop::Refused(ERR_INVALID_PARAMETER));
        }
        let Some(pixels) = surface.pixels.as_slice() else {
            return Err(Stop::Memory);
        };
        let image = shown_image(alloc, surface, pixels)?;
        Ok(image)
    }

    /// Whether the scanout has a cursor that is shown.
    pub(crate) fn has_cursor(&self, scanout: u32) -> bool
        ensures { result ≡ (cursor_of self.now.cursors scanout).visible }
    {
        (scanout as usize) < self.setup.displays.len() && self.cursors.visible(scanout)
    }
}

/// A resource's pixels as they are shown.
fn shown_image(alloc: Global, surface: &Surface, pixels: &[u8]) -> Result<Vec<u8>, AllocError>
    requires whole { IsWhole (resource_of surface.now) }
    requires pixels { pixels.now ≡ surface.now.pixels.bytes }
    ensures { IfOk result (λ image. image.items ≡ image_of (Some (resource_of surface.now))) }
{
    let mut image = zeros(alloc, pixels.len())?;
    show_row(surface.format, image.as_mut_slice(), pixels);
    Ok(image)
}

/// How a cursor looks once it is changed.
fn look_after<'a>(cursors: &'a Cursors, scanout: u32, change: &'a Change) -> Look<'a>
    requires scanout { scanout < length cursors.now }
    requires change { IsChange change.now }
    ensures look { cursor_like result ≡ change_of change.now (cursor_of cursors.now scanout) }
    ensures whole { IsWholeCursor (cursor_like result) }
{
    let look = cursors.look(scanout);
    match change {
        Change::Show {
            image,
            x,
            y,
            hot_x,
            hot_y,
        } => Look {
            visible: true,
            image: image.as_slice(),
            x: *x,
            y: *y,
            hot_x: *hot_x,
            hot_y: *hot_y,
        },
        Change::Hide { x, y } => Look {
            visible: false,
            x: *x,
            y: *y,
            ..look
        },
        Change::Place { x, y } => Look {
            x: *x,
            y: *y,
            ..look
        },
    }
}

fn change_cursor(cursors: &mut Cursors, scanout: u32, change: &Change)
    requires scanout { scanout < length cursors.old }
    requires change { IsChange change.now }
    ensures { cursors.new ≡ changed (change_of change.now) scanout cursors.old }
{
    match change {
        Change::Show {
            image,
            x,
            y,
            hot_x,
            hot_y,
        } => cursors.update(scanout, image.as_slice(), *x, *y, *hot_x, *hot_y),
        Change::Hide { x, y } => cursors.hide(scanout, *x, *y),
        Change::Place { x, y } => cursors.place(scanout, *x, *y),
    }
}
