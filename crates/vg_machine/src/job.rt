//! The jobs that a display lends: the copies of transfers (VIRTIO 1.2, 5.7.6.8, TRANSFER_TO_HOST_2D).

ghost use Rattle.std.specs.Prelude.{◌≡◌, ◌==◌, ◌≤◌, bit_and, if◌then◌else◌, length, None, Some};
ghost use Rattle.vg_machine.specs.JobWithin.{Fits, context_of};
ghost use Rattle.vg_machine.specs.Jobs.{worked};

use std::marker::Model;
use std::snapshot::Snapshot;
use vg_device::{Copy, Reply, Request};
use vg_formats::Rect;
use vg_pages::LentBytes;
use vg_transfer::place;
use vg_wire::{Header, read_header};

/// The copy of a transfer, which a worker makes beside the display: it has the pixels of the resource, row by row, four bytes each, and
/// shares the bytes of guest memory that are to fill a rectangle of them.
#[derive(Drop)]
pub struct Job {
    /// The request that it is the copy of, which only contracts read.
    asked: Snapshot<Request>,
    lane: u32,
    /// The context that the request names, if its flags have INFO_RING_IDX.
    context: Option<u32>,
    resource: u32,
    /// How many pixels a row of the resource has.
    width: u32,
    pixels: Vec<u8>,
    rect: Rect,
    /// The bytes that are to fill the rectangle. None once they are in their places.
    source: Option<LentBytes>,
    reply: Reply,
    copy: Reply,
}

impl Model for Job {
    ghost use Rattle.std.specs.Prelude.{◌≡◌, length};
    ghost use Rattle.vg_machine.specs.JobWithin.{Fits, bytes_in, context_of, pages_in};
    ghost use Rattle.vg_machine.specs.Jobs as jobs;

    ghost Value = { jobs.Job };

    ghost view = { λ j. record { asked = j.asked.value; resource = j.resource; width = j.width; pixels = j.pixels.items; rect = j.rect; bytes = bytes_in j.source; pages = pages_in j.source; reply = j.reply } };

    ghost invariant = { λ j. (j.lane ≡ j.asked.value.lane) × (j.context ≡ context_of j.asked.value) × (j.copy ≡ j.reply) × Fits j.rect j.width (length j.pixels.items) (bytes_in j.source) };
}

impl Job {
    /// The copy of a request's transfer, with what it needs, and the reply twice.
    pub(crate) fn new(
        request: &Request,
        copied: &Copy,
        pixels: Vec<u8>,
        source: LentBytes,
        replies: (Reply, Reply),
    ) -> Job
        requires fits { Fits copied.now.region.rect copied.now.region.width (length pixels.items) (Some source.bytes) }
        requires whole { 24 ≤ length request.now.bytes }
        requires twice { replies.1 ≡ replies.0 }
        ensures { result ≡ record { asked = request.now; resource = copied.now.resource; width = copied.now.region.width; pixels = pixels.items; rect = copied.now.region.rect; bytes = Some source.bytes; pages = source.pages; reply = replies.0 } }
    {
        let (reply, copy) = replies;
        Job {
            asked: Snapshot::of(request),
            lane: request.lane,
            context: context_of(request),
            resource: copied.resource,
            width: copied.region.width,
            pixels,
            rect: copied.region.rect,
            source: Some(source),
            reply,
            copy,
        }
    }

    /// The lane of its request.
    pub(crate) fn lane(&self) -> u32
        ensures { result ≡ self.now.asked.lane }
    {
        self.lane
    }

    /// The context that its request names, if it names one.
    pub(crate) fn context(&self) -> Option<u32>
        ensures { result ≡ context_of self.now.asked }
    {
        self.context
    }

    /// The resource whose pixels it has.
    pub(crate) fn resource(&self) -> u32
        ensures { result ≡ self.now.resource }
    {
        self.resource
    }

    /// The guest pages that have its bytes. One may stand several times.
    pub(crate) fn pages(&self) -> &[u32]
        ensures { result.now ≡ self.now.pages }
    {
        match &self.source {
            Some(bytes) => bytes.pages(),
            None => &[],
        }
    }

    /// Fills the rectangle with the bytes, once.
    pub(crate) fn work(&mut self)
        ensures { self.new ≡ worked self.old }
    {
        if let Some(mut bytes) = self.source.take() {
            place(
                &self.rect,
                self.width,
                &mut bytes,
                self.pixels.as_mut_slice(),
            );
        }
    }

    /// Its pixels, and the reply twice.
    pub(crate) fn into_parts(self) -> (Vec<u8>, (Reply, Reply))
        ensures pixels { result.0.items ≡ self.pixels }
        ensures reply { result.1.0 ≡ self.reply }
        ensures twice { result.1.1 ≡ result.1.0 }
    {
        let Job {
            pixels,
            reply,
            copy,
            ..
        } = self;
        (pixels, (reply, copy))
    }
}

/// The context that a request with a whole header names, if its flags have INFO_RING_IDX.
fn context_of(request: &Request) -> Option<u32>
    requires { 24 ≤ length request.now.bytes }
    ensures { result ≡ context_of request.now }
{
    match read_header(request.bytes.as_slice()) {
        Some(header) => context_in(&header),
        None => None,
    }
}

/// The context that a header names, if its flags have INFO_RING_IDX.
fn context_in(header: &Header) -> Option<u32>
    ensures { result ≡ (if bit_and header.now.flags 2 == 2 then Some header.now.ctx_id else None) }
{
    if header.flags & 2 == 2 {
        Some(header.ctx_id)
    } else {
        None
    }
}
