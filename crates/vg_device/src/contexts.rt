//! What the commands of contexts do (VIRTIO 1.2, 5.7.6.9). Each is for the context of its header.

ghost use Rattle.std.specs.Prelude.{◌≡◌};
ghost use Rattle.vg_device.specs.ContextStep.{ctx_attach_step, ctx_create_step, ctx_destroy_step, ctx_detach_step, submit_step};
ghost use Rattle.vg_device.specs.FitsWithin.{IfDone, IfWant, response_of};

use crate::device::Device;
use crate::stop::{Stop, nodata};
use std::alloc::Global;
use vg_wire::kinds::{ERR_INVALID_CONTEXT_ID, ERR_INVALID_RESOURCE_ID};
use vg_wire_ext::Response;

impl Device {
    /// CTX_CREATE
    pub(crate) fn ctx_create(
        &mut self,
        alloc: Global,
        context: u32,
        nlen: u32,
        context_init: u32,
    ) -> Result<Response, Stop>
        ensures step { IfDone result (λ response. ctx_create_step self.old context nlen context_init ≡ (self.new, response)) }
        ensures err { IfWant result (self.new ≡ self.old) }
    {
        let done = self.contexts.create(alloc, context, nlen, context_init)?;
        nodata(done)
    }

    /// CTX_DESTROY
    pub(crate) fn ctx_destroy(&mut self, context: u32) -> Result<(), u32>
        ensures { ctx_destroy_step self.old context ≡ (self.new, response_of result) }
    {
        self.contexts.destroy(context)
    }

    /// CTX_ATTACH_RESOURCE
    pub(crate) fn ctx_attach(&mut self, context: u32, resource: u32) -> Result<Response, Stop>
        ensures step { IfDone result (λ response. ctx_attach_step self.old context resource ≡ (self.new, response)) }
        ensures err { IfWant result (self.new ≡ self.old) }
    {
        if !self.contexts.has(context) {
            return Err(Stop::Refused(ERR_INVALID_CONTEXT_ID));
        }
        if !self.has_resource(resource) {
            return Err(Stop::Refused(ERR_INVALID_RESOURCE_ID));
        }
        let done = self.contexts.attach(context, resource)?;
        nodata(done)
    }

    /// CTX_DETACH_RESOURCE
    pub(crate) fn ctx_detach(&mut self, context: u32, resource: u32) -> Result<(), u32>
        ensures { ctx_detach_step self.old context resource ≡ (self.new, response_of result) }
    {
        self.contexts.detach(context, resource)
    }

    /// SUBMIT_3D, which has no commands that this display does.
    pub(crate) fn submit(&mut self, context: u32, stream: &[u8]) -> Result<(), u32>
        ensures { submit_step self.old context stream.now ≡ (self.new, response_of result) }
    {
        self.contexts.submit(context, stream)
    }
}
