//! What the commands do (VIRTIO 1.2, 5.7.6.8), one function each, in the order of their codes. Those of blobs, of contexts and
//! of the cursor queue stand in `blobs`, `contexts` and `cursors`.

ghost use Rattle.std.specs.Prelude.{◌≡◌, ◌≢◌, true, IfOk, ◌<◌, ◌-◌, ◌^◌, length};
ghost use Rattle.vg_wire.specs.Modes.{trimmed};
ghost use Rattle.vg_wire_ext.specs.Commands.{FitsEntries};
ghost use Rattle.vg_wire_ext.specs.declared.response.Response.TheVariants as responses;
ghost use Rattle.vg_device.specs.FitsWithin.{IfDone, IfWant, response_of, takes_memory, told_by};
ghost use Rattle.vg_device.specs.State.{has_resource};
ghost use Rattle.vg_device.specs.Step.{assign_step, attach_step, command_step, create_step, detach_step, edid_step, flush_step, set_scanout_step, transfer_step, unref_step};

use crate::blobs::Layout;
use crate::cursors::Update;
use crate::device::Device;
use crate::receive::receive;
use crate::stop::{Stop, nodata, or_refused};
use std::alloc::{AllocError, Global};
use vg_edid::edid;
use vg_formats::{MemEntry, Rect};
use vg_scanout::Binding;
use vg_wire::Command2d;
use vg_wire::kinds::{
    ERR_INVALID_PARAMETER, ERR_INVALID_RESOURCE_ID, ERR_INVALID_SCANOUT_ID, ERR_UNSPEC,
};
use vg_wire_ext::{Command, Response};

impl Device {
    /// Runs a command for the context of its header, and gives its response. Only one that takes memory may want it.
    pub(crate) fn run(
        &mut self,
        alloc: Global,
        context: u32,
        command: &Command,
    ) -> Result<Response, Stop>
        requires fresh { self.old.uuids.given < self.old.entries }
        requires entries { self.old.entries < 2 ^ 31 }
        requires count { FitsEntries command.now }
        ensures step { IfDone result (λ response. command_step self.old context command.now ≡ (self.new, response)) }
        ensures err { IfWant result (self.new ≡ self.old) }
        ensures memory { IfWant result (takes_memory command.now ≡ true) }
    {
        match command {
            Command::TwoD(Command2d::DisplayInfo) => self.display_info(alloc),
            Command::TwoD(
                Command2d::Create2d {
                    resource,
                    format,
                    width,
                    height,
                },
            ) => self.create(alloc, *resource, *format, *width, *height),
            Command::TwoD(Command2d::Unref { resource }) => nodata(self.unref(*resource)),
            Command::TwoD(
                Command2d::SetScanout {
                    rect,
                    scanout,
                    resource,
                },
            ) => nodata(self.set_scanout(rect, *scanout, *resource)),
            Command::TwoD(Command2d::Flush { rect, resource }) => {
                self.flush(alloc, rect, *resource)
            }
            Command::TwoD(
                Command2d::Transfer {
                    rect,
                    offset,
                    resource,
                },
            ) => self.transfer(rect, *offset, *resource),
            Command::TwoD(Command2d::Attach { resource, entries }) => {
                self.attach(alloc, *resource, entries.as_slice())
            }
            Command::TwoD(Command2d::Detach { resource }) => nodata(self.detach(*resource)),
            Command::CapsetInfo { .. } | Command::Capset { .. } => {
                Err(Stop::Refused(ERR_INVALID_PARAMETER))
            }
            Command::Edid { scanout } => or_refused(self.edid(*scanout)),
            Command::AssignUuid { resource } => self.assign_uuid(*resource),
            Command::CreateBlob {
                resource,
                mem,
                flags,
                size,
                entries,
                ..
            } => self.create_blob(alloc, *resource, *mem, *flags, *size, entries.as_slice()),
            Command::SetScanoutBlob {
                rect,
                scanout,
                resource,
                width,
                height,
                format,
                stride,
                offset,
            } => {
                let layout = Layout {
                    width: *width,
                    height: *height,
                    format: *format,
                    stride: *stride,
                    offset: *offset,
                };
                nodata(self.set_scanout_blob(rect, *scanout, *resource, &layout))
            }
            Command::CtxCreate {
                nlen,
                context_init,
                ..
            } => self.ctx_create(alloc, context, *nlen, *context_init),
            Command::CtxDestroy => nodata(self.ctx_destroy(context)),
            Command::CtxAttach { resource } => self.ctx_attach(context, *resource),
            Command::CtxDetach { resource } => nodata(self.ctx_detach(context, *resource)),
            Command::Submit { stream } => nodata(self.submit(context, stream.as_slice())),
            Command::UpdateCursor {
                scanout,
                x,
                y,
                resource,
                hot_x,
                hot_y,
            } => {
                let update = Update {
                    scanout: *scanout,
                    x: *x,
                    y: *y,
                    resource: *resource,
                    hot_x: *hot_x,
                    hot_y: *hot_y,
                };
                self.update_cursor(alloc, &update)
            }
            Command::MoveCursor { scanout, x, y } => self.move_cursor(alloc, *scanout, *x, *y),
        }
    }

    /// Whether there is a resource of this id, a 2D one or a blob.
    pub(crate) fn has_resource(&self, id: u32) -> bool
        ensures { result ≡ has_resource self.now id }
    {
        self.blobs.has(id) || self.resources.get(id).is_some()
    }

    /// The modes of the displays.
    fn display_info(&self, alloc: Global) -> Result<Response, Stop>
        ensures { IfDone result (λ response. response ≡ responses.DisplayInfo (trimmed self.now.plugs.modes)) }
    {
        let modes = self.plugs.told(alloc)?;
        Ok(Response::DisplayInfo { modes })
    }

    fn create(
        &mut self,
        alloc: Global,
        resource: u32,
        format: u32,
        width: u32,
        height: u32,
    ) -> Result<Response, Stop>
        ensures step { IfDone result (λ response. create_step self.old resource format width height ≡ (self.new, response)) }
        ensures err { IfWant result (self.new ≡ self.old) }
    {
        if self.blobs.has(resource) {
            return Err(Stop::Refused(ERR_INVALID_RESOURCE_ID));
        }
        let done = self
            .resources
            .create(alloc, resource, width, height, format)?;
        nodata(done)
    }

    fn unref(&mut self, resource: u32) -> Result<(), u32>
        ensures { unref_step self.old resource ≡ (self.new, response_of result) }
    {
        if !self.has_resource(resource) {
            return Err(ERR_INVALID_RESOURCE_ID);
        }
        let _ = self.blobs.remove(resource);
        let _ = self.resources.remove(resource);
        self.backings.remove(resource);
        self.contexts.forget(resource);
        self.uuids.forget(resource);
        self.scanouts.unbind_resource(resource);
        Ok(())
    }

    fn set_scanout(&mut self, rect: &Rect, scanout: u32, resource: u32) -> Result<(), u32>
        ensures { set_scanout_step self.old rect.now scanout resource ≡ (self.new, response_of result) }
    {
        if self.setup.displays.len() <= scanout as usize {
            return Err(ERR_INVALID_SCANOUT_ID);
        }
        if resource == 0 {
            self.scanouts.unbind(scanout);
            return Ok(());
        }
        self.show(rect, scanout, resource)
    }

    /// Binds a scanout to a rectangle of a resource.
    fn show(&mut self, rect: &Rect, scanout: u32, resource: u32) -> Result<(), u32>
        requires scanout { scanout < length self.old.setup.displays }
        requires resource { resource ≢ 0 }
        ensures { set_scanout_step self.old rect.now scanout resource ≡ (self.new, response_of result) }
    {
        if self.blobs.has(resource) {
            return Err(ERR_INVALID_PARAMETER);
        }
        let Some(surface) = self.resources.get(resource) else {
            return Err(ERR_INVALID_RESOURCE_ID);
        };
        if rect.is_empty() || !rect.inside(surface.width, surface.height) {
            return Err(ERR_INVALID_PARAMETER);
        }
        let binding = Binding {
            resource,
            rect: *rect,
            width: surface.width,
            height: surface.height,
            format: surface.format,
            stride: 4 * surface.width,
            offset: 0,
        };
        self.scanouts.bind(scanout, binding)
    }

    fn flush(&mut self, alloc: Global, rect: &Rect, resource: u32) -> Result<Response, Stop>
        ensures step { IfDone result (λ response. flush_step self.old rect.now resource ≡ (self.new, response)) }
        ensures err { IfWant result (self.new ≡ self.old) }
    {
        if self.blobs.has(resource) {
            return self.flush_blob(alloc, rect, resource);
        }
        let Some(surface) = self.resources.get(resource) else {
            return Err(Stop::Refused(ERR_INVALID_RESOURCE_ID));
        };
        if !rect.inside(surface.width, surface.height) {
            return Err(Stop::Refused(ERR_INVALID_PARAMETER));
        }
        let Some(pixels) = surface.pixels.as_slice() else {
            return Err(Stop::Memory);
        };
        let done = self
            .scanouts
            .flush(alloc, self.entries, resource, rect, pixels, &self.cursors)?;
        nodata(done)
    }

    fn transfer(&mut self, rect: &Rect, offset: u64, resource: u32) -> Result<Response, Stop>
        ensures step { IfDone result (λ response. transfer_step self.old rect.now offset resource ≡ (self.new, response)) }
        ensures err { IfWant result (self.new ≡ self.old) }
    {
        if self.blobs.has(resource) {
            return Ok(Response::Nodata);
        }
        let Some(done) = receive(
            &mut self.resources,
            resource,
            &self.pages,
            &self.backings,
            rect,
            offset,
        ) else {
            return Err(Stop::Memory);
        };
        nodata(done)
    }

    fn attach(
        &mut self,
        alloc: Global,
        resource: u32,
        entries: &[MemEntry],
    ) -> Result<Response, Stop>
        requires { length entries.now < 2 ^ 32 }
        ensures step { IfDone result (λ response. attach_step self.old resource entries.now ≡ (self.new, response)) }
        ensures err { IfWant result (self.new ≡ self.old) }
    {
        if self.blobs.has(resource) {
            return Err(Stop::Refused(ERR_UNSPEC));
        }
        if self.resources.get(resource).is_none() {
            return Err(Stop::Refused(ERR_INVALID_RESOURCE_ID));
        }
        let done = self.backings.attach(alloc, &self.pages, resource, entries)?;
        nodata(done)
    }

    fn detach(&mut self, resource: u32) -> Result<(), u32>
        ensures { detach_step self.old resource ≡ (self.new, response_of result) }
    {
        if self.blobs.has(resource) {
            return Err(ERR_UNSPEC);
        }
        if self.resources.get(resource).is_none() {
            return Err(ERR_INVALID_RESOURCE_ID);
        }
        self.backings.detach(resource)
    }

    /// The EDID block of a scanout's display, as it is plugged.
    fn edid(&self, scanout: u32) -> Result<Response, u32>
        ensures { edid_step self.now scanout ≡ (self.now, told_by result) }
    {
        match self.plugs.mode(scanout) {
            Some((width, height)) => Ok(Response::Edid {
                block: edid(width, height, scanout),
            }),
            None => Err(ERR_INVALID_SCANOUT_ID),
        }
    }

    fn assign_uuid(&mut self, resource: u32) -> Result<Response, Stop>
        requires fresh { self.old.uuids.given < self.old.entries }
        requires entries { self.old.entries < 2 ^ 31 }
        ensures step { IfDone result (λ response. assign_step self.old resource ≡ (self.new, response)) }
        ensures err { IfWant result (self.new ≡ self.old) }
    {
        if !self.has_resource(resource) {
            return Err(Stop::Refused(ERR_INVALID_RESOURCE_ID));
        }
        let uuid = self.uuids.assign(resource)?;
        Ok(Response::Uuid {
            bytes: uuid.into_bytes(),
        })
    }
}
