//! What the commands of blobs do (VIRTIO 1.2, 5.7.6.8), and what a flush shows of one.

ghost use Rattle.std.specs.Prelude.{◌≡◌, ◌≢◌, ◌<◌, ◌^◌, false, true, if◌then◌else◌, is_some, IfNone, IfSome, Some, length};
ghost use Rattle.vg_formats.specs.Formats.{format_of};
ghost use Rattle.vg_resource.specs.Resource.{resource_at};
ghost use Rattle.vg_wire.specs.Kinds as kinds;
ghost use Rattle.vg_device.specs.BlobStep.{create_blob_step, is_laid_out, layout_end, set_scanout_blob_step};
ghost use Rattle.vg_device.specs.FitsWithin.{IfDone, IfWant, response_of};
ghost use Rattle.vg_device.specs.State.{is_blob};
ghost use Rattle.vg_device.specs.Step.{flush_step};

use crate::device::Device;
use crate::stop::{Stop, nodata};
use std::alloc::Global;
use vg_formats::{Format, MemEntry, Rect};
use vg_scanout::Binding;
use vg_wire::kinds::{ERR_INVALID_PARAMETER, ERR_INVALID_RESOURCE_ID, ERR_INVALID_SCANOUT_ID};
use vg_wire_ext::Response;

/// How pixels stand in a blob: `width` by `height` of them, four bytes each, pixel (u, v) from byte `offset + stride * v + 4 * u` on.
/// `format` is a code of VIRTIO 1.2, 5.7.6.8.
#[derive(Clone, Copy)]
pub struct Layout {
    pub width: u32,
    pub height: u32,
    pub format: u32,
    pub stride: u32,
    pub offset: u32,
}

impl Device {
    /// RESOURCE_CREATE_BLOB
    pub(crate) fn create_blob(
        &mut self,
        alloc: Global,
        resource: u32,
        mem: u32,
        flags: u32,
        size: u64,
        entries: &[MemEntry],
    ) -> Result<Response, Stop>
        requires { length entries.now < 2 ^ 32 }
        ensures step { IfDone result (λ response. create_blob_step self.old resource mem flags size entries.now ≡ (self.new, response)) }
        ensures err { IfWant result (self.new ≡ self.old) }
    {
        if self.resources.get(resource).is_some() {
            return Err(Stop::Refused(ERR_INVALID_RESOURCE_ID));
        }
        let done = self
            .blobs
            .create(alloc, &self.pages, resource, mem, flags, size, entries)?;
        nodata(done)
    }

    /// SET_SCANOUT_BLOB
    pub(crate) fn set_scanout_blob(
        &mut self,
        rect: &Rect,
        scanout: u32,
        resource: u32,
        layout: &Layout,
    ) -> Result<(), u32>
        ensures { set_scanout_blob_step self.old rect.now scanout resource layout.now ≡ (self.new, response_of result) }
    {
        if self.setup.displays.len() <= scanout as usize {
            return Err(ERR_INVALID_SCANOUT_ID);
        }
        if resource == 0 {
            self.scanouts.unbind(scanout);
            return Ok(());
        }
        self.show_blob(rect, scanout, resource, layout)
    }

    /// Binds a scanout to a rectangle of a blob.
    fn show_blob(
        &mut self,
        rect: &Rect,
        scanout: u32,
        resource: u32,
        layout: &Layout,
    ) -> Result<(), u32>
        requires scanout { scanout < length self.old.setup.displays }
        requires resource { resource ≢ 0 }
        ensures { set_scanout_blob_step self.old rect.now scanout resource layout.now ≡ (self.new, response_of result) }
    {
        let Some(size) = self.blobs.size(resource) else {
            return Err(self.refusal_of_other(resource));
        };
        let Some(format) = format_in(rect, layout, size) else {
            return Err(ERR_INVALID_PARAMETER);
        };
        let binding = Binding {
            resource,
            rect: *rect,
            width: layout.width,
            height: layout.height,
            format,
            stride: layout.stride,
            offset: layout.offset,
        };
        self.scanouts.bind(scanout, binding)
    }

    /// Why a resource that is no blob isn't shown as one.
    fn refusal_of_other(&self, resource: u32) -> u32
        ensures { result ≡ (if is_some (resource_at resource self.now.resources) then kinds.ERR_INVALID_PARAMETER else kinds.ERR_INVALID_RESOURCE_ID) }
    {
        if self.resources.get(resource).is_some() {
            ERR_INVALID_PARAMETER
        } else {
            ERR_INVALID_RESOURCE_ID
        }
    }

    /// Shows a rectangle of a blob as guest memory has it now.
    pub(crate) fn flush_blob(
        &mut self,
        alloc: Global,
        rect: &Rect,
        resource: u32,
    ) -> Result<Response, Stop>
        requires { is_blob self.old resource ≡ true }
        ensures step { IfDone result (λ response. flush_step self.old rect.now resource ≡ (self.new, response)) }
        ensures err { IfWant result (self.new ≡ self.old) }
    {
        let Some(surface) = self.blobs.surface(alloc, &self.pages, resource)? else {
            return Err(Stop::Refused(ERR_INVALID_RESOURCE_ID));
        };
        let bytes = surface.as_slice();
        let done = self
            .scanouts
            .flush(alloc, self.entries, resource, rect, bytes, &self.cursors)?;
        nodata(done)
    }
}

/// The format of a layout, where its pixels stand in so many bytes, each row's in one stride, and the rectangle has some of them.
fn format_in(rect: &Rect, layout: &Layout, size: u64) -> Option<Format>
    ensures some { IfSome result (λ format. (format_of layout.now.format ≡ Some format) × (is_laid_out rect.now layout.now size ≡ true)) }
    ensures none { IfNone result (is_laid_out rect.now layout.now size ≡ false) }
{
    if layout.width == 0 || layout.height == 0 || rect.is_empty() {
        return None;
    }
    if !rect.inside(layout.width, layout.height) {
        return None;
    }
    if 4 * u64::from(layout.width) > u64::from(layout.stride) || u128::from(size) < end_of(layout) {
        return None;
    }
    Format::of(layout.format)
}

/// One past the last byte of a layout.
fn end_of(layout: &Layout) -> u128
    requires { 0 < layout.now.height }
    ensures { result ≡ layout_end layout.now }
{
    u128::from(layout.offset)
        + u128::from(layout.stride) * (u128::from(layout.height) - 1)
        + 4 * u128::from(layout.width)
}
