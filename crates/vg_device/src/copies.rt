//! The copies of transfers (VIRTIO 1.2, 5.7.6.8, TRANSFER_TO_HOST_2D), which can be made beside the device: what one takes out of it, and how
//! it is brought back.

ghost use Rattle.std.specs.Prelude.{◌≡◌, ◌+◌, ◌*◌, ◌-◌, ◌<◌, ◌≤◌, ◌^◌, ℕ, List, false, true, length, All, IfNone, IfOk, IfSome, OnErr, OnOk, option_map, Some};
ghost use Rattle.std.specs.List.{list_any};
ghost use Rattle.vg_backing.specs.Backing.{touches};
ghost use Rattle.vg_pages.specs.Lending.{AreFlagged, AreSameIn, would_take};
ghost use Rattle.vg_pages.specs.Memory.{Memory, is_among};
ghost use Rattle.vg_resource.specs.Resource.{pixels_at, resource_at};
ghost use Rattle.vg_transfer.specs.Backings.{entries_at, placed, transferred};
ghost use Rattle.vg_blob.specs.Blobs.{blob_at, entries_of};
ghost use Rattle.vg_share.specs.Cells.{pages_of};
ghost use Rattle.vg_share.specs.Share.{SharesPages, pages_at};
ghost use Rattle.vg_wire_ext.specs.declared.response.Response.TheVariants as responses;
ghost use Rattle.vg_device.specs.declared.request.Reply.TheVariants as replies;
ghost use Rattle.vg_device.specs.Copies.{AsksFor, IsAccepted, brought_back, copies, copies_2d, has_as_many};
ghost use Rattle.vg_device.specs.FitsWithin.{transfer_read};
ghost use Rattle.vg_device.specs.Step.{answered};

use crate::device::{Device, response_of, write_answer};
use crate::request::{Reply, Request};
use std::alloc::{AllocError, Global};
use vg_chain::Shape;
use vg_formats::Rect;
use vg_pages::{LentBytes, any_flagged};
use vg_share::pages_of;
use vg_transfer::Region;
use vg_wire::Command2d;
use vg_wire_ext::{Command, Response};

/// What a transfer that isn't refused copies: a region of a 2D resource, which has pixels.
#[derive(Clone, Copy)]
pub struct Copy {
    pub resource: u32,
    pub region: Region,
}

impl Device {
    /// The copy that a request asks for: that of a transfer to a 2D resource which isn't refused and has pixels in its rectangle. None of
    /// any other request.
    pub fn asked_copy(&self, alloc: Global, request: &Request) -> Result<Option<Copy>, AllocError>
        ensures asks { IfOk result (λ answer. IfSome answer (AsksFor self.now request.now)) }
        ensures accepted { IfOk result (λ answer. IfSome answer (IsAccepted self.now)) }
        ensures some { IfOk result (λ answer. IfSome answer (λ copy. copies self.now request.now ≡ true)) }
        ensures none { IfOk result (λ answer. IfNone answer (copies self.now request.now ≡ false)) }
    {
        if let Shape::Bad { .. } = request.shape {
            return Ok(None);
        }
        let read = self.read(alloc, request.queue, request.bytes.as_slice())?;
        let Some((rect, offset, resource)) = transfer_in(&read) else {
            return Ok(None);
        };
        Ok(self.accepted(&rect, offset, resource))
    }

    /// The copy of a transfer, if it isn't refused and copies something.
    fn accepted(&self, rect: &Rect, offset: u64, resource: u32) -> Option<Copy>
        ensures is { IfSome result (λ copy. (copy.resource ≡ resource) × (copy.region.rect ≡ rect.now) × (copy.region.offset ≡ offset)) }
        ensures accepted { IfSome result (IsAccepted self.now) }
        ensures some { IfSome result (λ copy. copies_2d self.now rect.now offset resource ≡ true) }
        ensures none { IfNone result (copies_2d self.now rect.now offset resource ≡ false) }
    {
        if rect.is_empty() || self.blobs.has(resource) {
            return None;
        }
        let Some(surface) = self.resources.get(resource) else {
            return None;
        };
        let region = Region {
            rect: *rect,
            offset,
            width: surface.width,
            height: surface.height,
        };
        match self.backings.refusal(resource, &region) {
            Some(_) => None,
            None => Some(Copy { resource, region }),
        }
    }

    /// What a copy needs: the resource's pixels, row by row, four bytes each, which are away from then on until they are put back, and the
    /// bytes of guest memory that are copied. What is seen of the device stays as it was.
    pub fn lend(&mut self, alloc: Global, copy: &Copy) -> Result<(Vec<u8>, LentBytes), AllocError>
        requires { IsAccepted self.old copy.now }
        ensures same { self.new ≡ self.old }
        ensures pixels { IfOk result (λ parts. pixels_at copy.now.resource self.old.resources ≡ Some parts.0.items) }
        ensures rows { IfOk result (λ parts. 4 * copy.now.region.width * (copy.now.region.rect.y + copy.now.region.rect.height) ≤ length parts.0.items) }
        ensures long { IfOk result (λ parts. 4 * copy.now.region.width * (copy.now.region.rect.height - 1) + 4 * copy.now.region.rect.width ≤ length parts.1.bytes) }
        ensures bytes { IfOk result (λ parts. (other : Memory) → AreSameIn parts.1.pages self.old.memory other → (pixels : List ℕ)
            → placed copy.now.region.rect copy.now.region.width parts.1.bytes pixels
            ≡ transferred other (entries_at copy.now.resource self.old.backings) copy.now.region.rect copy.now.region.offset copy.now.region.width pixels) }
        ensures touched { IfOk result (λ parts. All (λ page. touches page (entries_at copy.now.resource self.old.backings) ≡ true) parts.1.pages) }
        ensures inside { IfOk result (λ parts. All (λ page. page < self.old.setup.pages) parts.1.pages) }
    {
        let bytes = self
            .backings
            .lend(alloc, &self.pages, copy.resource, &copy.region)?;
        let Some(pixels) = self.resources.lend(copy.resource) else {
            return Err(AllocError);
        };
        Ok((pixels, bytes))
    }

    /// The reply to a request that is accepted with OK_NODATA, twice.
    pub fn acceptance_of(alloc: Global, request: &Request) -> Result<(Reply, Reply), AllocError>
        ensures reply { IfOk result (λ twice. twice.0 ≡ replies.Response (answered request.now.bytes request.now.room responses.Nodata)) }
        ensures same { IfOk result (λ twice. twice.1 ≡ twice.0) }
    {
        let bytes = request.bytes.as_slice();
        let (response, copy) = write_answer(alloc, bytes, request.room, &Response::Nodata)?;
        Ok((response_of(response), response_of(copy)))
    }

    /// Takes back what `lend` gave, as it was. It takes no memory.
    pub fn take_back(&mut self, resource: u32, pixels: Vec<u8>)
        requires { pixels_at resource self.old.resources ≡ Some pixels.items }
        ensures { self.new ≡ self.old }
    {
        self.resources.restore(resource, pixels);
    }

    /// Puts pixels into their resource, which may be others now, as one entry more. It takes no memory. Where there is no such resource,
    /// or it has more or fewer bytes, the entry changes nothing.
    pub fn put_back(&mut self, resource: u32, pixels: Vec<u8>)
        requires { self.old.entries < 2 ^ 31 - 1 }
        ensures { self.new ≡ brought_back resource pixels.items self.old }
    {
        self.entries += 1;
        if self.has_as_many(resource, pixels.len()) {
            self.resources.restore(resource, pixels);
        }
    }

    /// Whether there is such a resource, and its pixels have so many bytes.
    fn has_as_many(&self, resource: u32, count: usize) -> bool
        ensures { result ≡ has_as_many count (resource_at resource self.now.resources) }
    {
        match self.resources.get(resource) {
            Some(found) => found.pixels.len() == count,
            None => false,
        }
    }

    /// Whether a byte of a page whose flag is set is in a resource's backing.
    pub fn backing_touches(&self, resource: u32, flags: &[bool]) -> bool
        ensures { (pages : List ℕ) → AreFlagged flags.now pages → result ≡ list_any (λ page. touches page (entries_at resource self.now.backings)) pages }
    {
        self.backings.touches_some(resource, flags)
    }

    /// Whether one is in a blob.
    pub fn blob_touches(&self, resource: u32, flags: &[bool]) -> bool
        ensures { (pages : List ℕ) → AreFlagged flags.now pages → result ≡ list_any (λ page. touches page (entries_of (blob_at resource self.now.blobs))) pages }
    {
        self.blobs.touches_some(resource, flags)
    }

    /// Whether a buffer has a page whose flag is set.
    pub fn buffer_has(&self, key: u32, flags: &[bool]) -> bool
        ensures { (pages : List ℕ) → AreFlagged flags.now pages → result ≡ list_any (is_among pages) (pages_at key self.now.share) }
    {
        match self.share.pages(key) {
            Some(own) => any_flagged(own, flags),
            None => false,
        }
    }

    /// Whether a reserve of so many bytes would take a page whose flag is set.
    pub fn would_take(&self, bytes: u32, flags: &[bool]) -> bool
        ensures { (pages : List ℕ) → AreFlagged flags.now pages → result ≡ would_take (pages_of bytes) pages self.now.memory.taken }
    {
        self.pages.would_take(pages_of(bytes), flags)
    }

    /// A law, and no work: the buffers and guest memory fit.
    pub fn shares_its_pages(&self)
        ensures { SharesPages self.now.memory self.now.share }
    {
        let _ = &self.setup;
    }
}

/// The transfer that was read, if it was one: its rectangle, its offset, and its resource.
fn transfer_in(read: &Result<(u32, Command), u32>) -> Option<(Rect, u64, u32)>
    ensures { result ≡ transfer_read read.now }
{
    match read {
        Ok(
            (
                _,
                Command::TwoD(
                    Command2d::Transfer {
                        rect,
                        offset,
                        resource,
                    },
                ),
            ),
        ) => Some((*rect, *offset, *resource)),
        _ => None,
    }
}
