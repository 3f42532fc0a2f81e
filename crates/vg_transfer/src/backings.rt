//! The backings of resources, and the transfers from them (VIRTIO 1.2, 5.7.6.8).

ghost use Rattle.std.specs.List.{list_any};
ghost use Rattle.std.specs.Prelude.{◌≡◌, ◌+◌, ◌-◌, ◌*◌, ◌<◌, ◌≤◌, ◌⊎◌, ◌^◌, ℕ, List, [], true, false, length, take, drop, IfOk, OnOk, OnErr, Ok, None, All, is_none, option_copied};
ghost use Rattle.vg_pages.specs.Lending.{AreFlagged, AreSameIn};
ghost use Rattle.vg_pages.specs.Memory.{Memory};
ghost use Rattle.vg_formats.specs.declared.rect.Rect.{Rect};
ghost use Rattle.vg_formats.specs.Pixels.{is_empty};
ghost use Rattle.vg_backing.specs.Backing.{AreHeld, backing_bytes, total, touches};
ghost use Rattle.std.specs.Option.{option_map};
ghost use Rattle.vg_transfer.specs.Backings.{attach, backing_at, detach, detached, entries_at, placed, transfer, transfer_end, transfer_refusals, transferred};
ghost use Rattle.vg_refusals.specs.Refusals.{refusal_of};
ghost use Rattle.vg_transfer.specs.Pixels.{CopiesRect};

use std::alloc::{AllocError, Global};
use std::collections::BTreeMap;
use std::marker::Model;
use vg_backing::Backing;
use vg_formats::{MemEntry, Rect};
use vg_pages::{LentBytes, Pages};
use vg_wire::kinds::{ERR_INVALID_PARAMETER, ERR_UNSPEC};

/// What a transfer copies: a rectangle of a resource of `width` by `height` pixels, four bytes each. The rectangle's first byte is
/// that of number `offset` of the backing, and the others stand in the backing as they do in the resource.
#[derive(Clone, Copy)]
pub struct Region {
    pub rect: Rect,
    pub offset: u64,
    pub width: u32,
    pub height: u32,
}

/// The backings by the ids of their resources.
#[derive(Debug, Drop)]
pub struct Backings {
    map: BTreeMap<u32, Backing>,
}

impl Model for Backings {
    ghost use Rattle.std.specs.Prelude.{ℕ, List};
    ghost use Rattle.vg_formats.specs.declared.entry.MemEntry.{MemEntry};

    ghost Value = { List (ℕ × List MemEntry) };

    ghost view = { λ b. b.map.entries };
}

impl Backings {
    /// No backings, which takes no memory.
    pub fn new(alloc: Global) -> Backings
        ensures { result ≡ [] }
    {
        Backings {
            map: BTreeMap::new(alloc),
        }
    }

    /// Gives a resource, of which the caller knows that there is one, its backing, or answers the code of its refusal:
    /// ERR_UNSPEC where it has one already, ERR_INVALID_PARAMETER where the entries are bad.
    #[tactic(auto, unfolding(crate::specs::Backings::attach))]
    pub fn attach(
        &mut self,
        alloc: Global,
        pages: &Pages,
        resource: u32,
        entries: &[MemEntry],
    ) -> Result<Result<(), u32>, AllocError>
        requires number { length entries.now < 2 ^ 32 }
        ensures done { IfOk result (λ done. (self.new, done) ≡ attach true pages.now resource entries.now self.old) }
        ensures held { All (λ entry. AreHeld pages.now entry.1) self.old → All (λ entry. AreHeld pages.now entry.1) self.new }
        ensures err { OnErr result (self.new ≡ self.old) }
    {
        if self.map.contains_key(&resource) {
            return Ok(Err(ERR_UNSPEC));
        }
        let Some(backing) = Backing::new(alloc, pages, entries)? else {
            return Ok(Err(ERR_INVALID_PARAMETER));
        };
        self.map.insert(resource, backing)?;
        Ok(Ok(()))
    }

    /// Ends a resource's backing, or answers ERR_UNSPEC where it has none.
    #[tactic(auto, unfolding(crate::specs::Backings::detach))]
    pub fn detach(&mut self, resource: u32) -> Result<(), u32>
        ensures done { (self.new, result) ≡ detach true resource self.old }
        ensures held { (memory : Memory) → All (λ entry. AreHeld memory entry.1) self.old → All (λ entry. AreHeld memory entry.1) self.new }
    {
        match self.map.remove(&resource) {
            Some(_) => Ok(()),
            None => Err(ERR_UNSPEC),
        }
    }

    /// Ends a resource's backing, if it has one.
    pub fn remove(&mut self, resource: u32)
        ensures after { self.new ≡ detached resource self.old }
        ensures held { (memory : Memory) → All (λ entry. AreHeld memory entry.1) self.old → All (λ entry. AreHeld memory entry.1) self.new }
    {
        self.map.remove(&resource);
    }

    /// Copies a rectangle of a resource, row by row, from its backing, or answers the code of its refusal.
    #[tactic(auto, unfolding(crate::specs::Backings::transfer))]
    pub fn transfer(
        &self,
        pages: &Pages,
        resource: u32,
        region: &Region,
        pixels: &mut [u8],
    ) -> Result<(), u32>
        requires held { All (λ entry. AreHeld pages.now entry.1) self.now }
        requires whole { length pixels.old ≡ 4 * region.now.width * region.now.height }
        ensures done { (pixels.new, result) ≡ transfer true pages.now resource region.now.rect region.now.offset region.now.width region.now.height self.now pixels.old }
        ensures pixels { OnOk result (CopiesRect region.now.rect region.now.offset region.now.width region.now.height (backing_bytes pages.now (entries_at resource self.now)) pixels.old pixels.new) }
    {
        if let Some(code) = self.refusal(resource, region) {
            return Err(code);
        }
        let backing = self.known(resource);
        copy_rect(
            backing,
            pages,
            &region.rect,
            region.offset,
            region.width,
            pixels,
        );
        Ok(())
    }

    /// The code of the refusal of a transfer to this region, by which alone `transfer` is refused: ERR_UNSPEC without a backing,
    /// ERR_INVALID_PARAMETER for a rectangle outside of the resource, or bytes past the backing's end.
    pub fn refusal(&self, resource: u32, region: &Region) -> Option<u32>
        ensures { result ≡ refusal_of (transfer_refusals true resource region.now.rect region.now.offset region.now.width region.now.height self.now) }
    {
        let Some(backing) = self.get(resource) else {
            return Some(ERR_UNSPEC);
        };
        let rect = &region.rect;
        if !rect.inside(region.width, region.height) {
            return Some(ERR_INVALID_PARAMETER);
        }
        if !rect.is_empty()
            && u128::from(backing.length()) < end_of(rect, region.offset, region.width)
        {
            return Some(ERR_INVALID_PARAMETER);
        }
        None
    }

    /// The bytes that a transfer which isn't refused copies, with those between the rows of its rectangle, as they are now: what
    /// `place` takes. They come to the same as long as nothing is written to the pages that have them.
    pub fn lend(
        &self,
        alloc: Global,
        pages: &Pages,
        resource: u32,
        region: &Region,
    ) -> Result<LentBytes, AllocError>
        requires held { All (λ entry. AreHeld pages.now entry.1) self.now }
        requires accepted { refusal_of (transfer_refusals true resource region.now.rect region.now.offset region.now.width region.now.height self.now) ≡ None }
        requires some { is_empty region.now.rect ≡ false }
        ensures long { IfOk result (λ lent. 4 * region.now.width * (region.now.rect.height - 1) + 4 * region.now.rect.width ≤ length lent.bytes) }
        ensures same { IfOk result (λ lent. (other : Memory) → AreSameIn lent.pages pages.now other → (pixels : List ℕ)
            → placed region.now.rect region.now.width lent.bytes pixels ≡ transferred other (entries_at resource self.now) region.now.rect region.now.offset region.now.width pixels) }
        ensures touched { IfOk result (λ lent. All (λ page. touches page (entries_at resource self.now) ≡ true) lent.pages) }
        ensures inside { IfOk result (λ lent. All (λ page. page < length pages.now.taken) lent.pages) }
    {
        lend_rect(alloc, self.known(resource), pages, region)
    }

    /// The entries of a resource's backing, in order. None where it has no backing.
    pub fn entries(&self, resource: u32) -> Option<&[MemEntry]>
        ensures { option_copied result ≡ backing_at resource self.now }
    {
        match self.get(resource) {
            Some(backing) => Some(backing.entries()),
            None => None,
        }
    }

    /// How many bytes a resource's backing has. None where it has no backing.
    pub fn length(&self, resource: u32) -> Option<u64>
        ensures { result ≡ option_map total (backing_at resource self.now) }
    {
        match self.get(resource) {
            Some(backing) => Some(backing.length()),
            None => None,
        }
    }

    /// Whether some byte of the page lies in an entry of a resource's backing.
    pub fn touches(&self, resource: u32, page: u32) -> bool
        ensures { result ≡ touches page (entries_at resource self.now) }
    {
        match self.get(resource) {
            Some(backing) => backing.touches(page),
            None => false,
        }
    }

    /// Whether some byte of a page whose flag is set lies in an entry of a resource's backing.
    pub fn touches_some(&self, resource: u32, flags: &[bool]) -> bool
        ensures { (pages : List ℕ) → AreFlagged flags.now pages → result ≡ list_any (λ page. touches page (entries_at resource self.now)) pages }
    {
        match self.get(resource) {
            Some(backing) => backing.touches_some(flags),
            None => false,
        }
    }

    /// A law, and no work: after a transfer that isn't refused pixel (x + i, y + j) of a resource of this width and height, in
    /// column i and row j of the rectangle at (x, y), is the four bytes of the backing from
    /// `offset + 4 * width * j + 4 * i` on, and each other pixel is as before.
    pub fn a_transfer_copies_each_pixel(&self, pages: &Pages)
        requires { All (λ entry. AreHeld pages.now entry.1) self.now }
        ensures { (id : ℕ) (rect : Rect) (offset width height : ℕ) (pixels : List ℕ) → length pixels ≡ 4 * width * height
            → (transfer true pages.now id rect offset width height self.now pixels).1 ≡ Ok tt
            → CopiesRect rect offset width height (backing_bytes pages.now (entries_at id self.now)) pixels (transfer true pages.now id rect offset width height self.now pixels).0 }
    {
        let _ = &self.map;
        let _ = pages;
    }

    /// The backing of a resource.
    fn get(&self, resource: u32) -> Option<&Backing>
        ensures value { option_copied result ≡ backing_at resource self.now }
    {
        self.map.get(&resource)
    }

    /// The backing of a resource that has one.
    fn known(&self, resource: u32) -> &Backing
        requires { is_none (backing_at resource self.now) ≡ false }
        ensures { result.now ≡ entries_at resource self.now }
    {
        self.get(resource).unwrap()
    }
}

/// A law, and no work: what `a_transfer_copies_each_pixel` says tells all pixels of the resource, so that of two lists of its size
/// of which that is true both are the same.
pub fn each_pixel_tells_the_transfer()
    ensures { (rect : Rect) (offset width height : ℕ) (bytes old one other : List ℕ) → length one ≡ 4 * width * height → length other ≡ 4 * width * height
        → CopiesRect rect offset width height bytes old one → CopiesRect rect offset width height bytes old other → one ≡ other }
{}

/// Copies a rectangle of pixels, four bytes each, of a resource with `width` pixels a row. The first byte of its first row
/// is that at `offset`, and the others stand as they do in the resource.
fn copy_rect(
    backing: &Backing,
    pages: &Pages,
    rect: &Rect,
    offset: u64,
    width: u32,
    pixels: &mut [u8],
)
    requires held { AreHeld pages.now backing.now }
    requires columns { rect.now.x + rect.now.width ≤ width }
    requires rows { 4 * width * (rect.now.y + rect.now.height) ≤ length pixels.old }
    requires source { (is_empty rect.now ≡ true) ⊎ (transfer_end rect.now offset width ≤ total backing.now) }
    ensures { pixels.new ≡ transferred pages.now backing.now rect.now offset width pixels.old }
{
    if rect.is_empty() {
        return;
    }
    if rect.width == width {
        copy_whole_rows(backing, pages, rect, offset, pixels);
    } else {
        copy_rows(backing, pages, rect, offset, width, pixels);
    }
}

/// Copies rows that are as wide as the resource, and so stand one after another in it and in the backing.
fn copy_whole_rows(backing: &Backing, pages: &Pages, rect: &Rect, offset: u64, pixels: &mut [u8])
    requires held { AreHeld pages.now backing.now }
    requires left { rect.now.x ≡ 0 }
    requires some { (0 < rect.now.width) × (0 < rect.now.height) }
    requires rows { 4 * rect.now.width * (rect.now.y + rect.now.height) ≤ length pixels.old }
    requires source { transfer_end rect.now offset rect.now.width ≤ total backing.now }
    ensures { pixels.new ≡ transferred pages.now backing.now rect.now offset rect.now.width pixels.old }
{
    let row_bytes = 4 * rect.width as usize;
    let from = row_bytes * rect.y as usize;
    let size = row_bytes * rect.height as usize;
    backing.read(pages, offset, &mut pixels[from..from + size]);
}

/// Copies each row by itself.
fn copy_rows(
    backing: &Backing,
    pages: &Pages,
    rect: &Rect,
    offset: u64,
    width: u32,
    pixels: &mut [u8],
)
    requires held { AreHeld pages.now backing.now }
    requires columns { rect.now.x + rect.now.width ≤ width }
    requires rows { 4 * width * (rect.now.y + rect.now.height) ≤ length pixels.old }
    requires source { transfer_end rect.now offset width ≤ total backing.now }
    ensures { pixels.new ≡ transferred pages.now backing.now rect.now offset width pixels.old }
{
    // The numbers of the bytes fit, since the backing's length does.
    let end = backing.length();
    prove!(offset <= end);
    let stride = 4 * u64::from(width);
    let row_bytes = 4 * rect.width as usize;
    let mut to = stride as usize * rect.y as usize + 4 * rect.x as usize;
    for i in 0..rect.height {
        let from = offset + stride * u64::from(i);
        backing.read(pages, from, &mut pixels[to..to + row_bytes]);
        to += stride as usize;
    }
}

/// The bytes of the backing from the first to the last that a transfer reads.
fn lend_rect(
    alloc: Global,
    backing: &Backing,
    pages: &Pages,
    region: &Region,
) -> Result<LentBytes, AllocError>
    requires held { AreHeld pages.now backing.now }
    requires some { (0 < region.now.rect.width) × (0 < region.now.rect.height) }
    requires source { transfer_end region.now.rect region.now.offset region.now.width ≤ total backing.now }
    ensures long { IfOk result (λ lent. transfer_end region.now.rect 0 region.now.width ≤ length lent.bytes) }
    ensures rest { IfOk result (λ lent. (other : Memory) → AreSameIn lent.pages pages.now other
        → take (transfer_end region.now.rect 0 region.now.width) (drop region.now.offset (backing_bytes other backing.now)) ≡ lent.bytes) }
    ensures touched { IfOk result (λ lent. All (λ page. touches page backing.now ≡ true) lent.pages) }
    ensures inside { IfOk result (λ lent. All (λ page. page < length pages.now.taken) lent.pages) }
{
    // The number of the bytes fits, since the backing's length does.
    let end = backing.length();
    prove!(region.offset <= end);
    let count = end_of(&region.rect, 0, region.width);
    backing.lend(alloc, pages, region.offset, count as usize)
}

/// Fills a rectangle, which isn't empty, of a resource with `width` pixels a row from the next bytes, which begin with its first
/// pixel and stand as they do in the resource.
pub fn place(rect: &Rect, width: u32, bytes: &mut LentBytes, pixels: &mut [u8])
    requires columns { rect.now.x + rect.now.width ≤ width }
    requires rows { 4 * width * (rect.now.y + rect.now.height) ≤ length pixels.old }
    requires some { is_empty rect.now ≡ false }
    requires long { 4 * width * (rect.now.height - 1) + 4 * rect.now.width ≤ length bytes.old.bytes }
    ensures pixels { pixels.new ≡ placed rect.now width bytes.old.bytes pixels.old }
    ensures pages { bytes.new.pages ≡ bytes.old.pages }
{
    if rect.width == width {
        place_whole_rows(rect, bytes, pixels);
    } else {
        place_rows(rect, width, bytes, pixels);
    }
}

/// Fills rows that are as wide as the resource, and so stand one after another in it.
fn place_whole_rows(rect: &Rect, bytes: &mut LentBytes, pixels: &mut [u8])
    requires left { rect.now.x ≡ 0 }
    requires some { (0 < rect.now.width) × (0 < rect.now.height) }
    requires rows { 4 * rect.now.width * (rect.now.y + rect.now.height) ≤ length pixels.old }
    requires long { 4 * rect.now.width * (rect.now.height - 1) + 4 * rect.now.width ≤ length bytes.old.bytes }
    ensures pixels { pixels.new ≡ placed rect.now rect.now.width bytes.old.bytes pixels.old }
    ensures pages { bytes.new.pages ≡ bytes.old.pages }
{
    let row_bytes = 4 * rect.width as usize;
    let to = row_bytes * rect.y as usize;
    let end = to + row_bytes * rect.height as usize;
    bytes.read(&mut pixels[to..end]);
}

/// Fills each row by itself, and leaves out the bytes between two rows.
fn place_rows(rect: &Rect, width: u32, bytes: &mut LentBytes, pixels: &mut [u8])
    requires columns { rect.now.x + rect.now.width ≤ width }
    requires rows { 4 * width * (rect.now.y + rect.now.height) ≤ length pixels.old }
    requires long { 4 * width * (rect.now.height - 1) + 4 * rect.now.width ≤ length bytes.old.bytes }
    ensures pixels { pixels.new ≡ placed rect.now width bytes.old.bytes pixels.old }
    ensures pages { bytes.new.pages ≡ bytes.old.pages }
{
    let stride = 4 * width as usize;
    let row_bytes = 4 * rect.width as usize;
    let mut to = stride * rect.y as usize + 4 * rect.x as usize;
    let mut gap = 0;
    for _row in 0..rect.height {
        bytes.skip(gap);
        bytes.read(&mut pixels[to..to + row_bytes]);
        gap = stride - row_bytes;
        to += stride;
    }
}

/// One past the last byte of the backing that a transfer reads.
fn end_of(rect: &Rect, offset: u64, width: u32) -> u128
    requires { 0 < rect.now.height }
    ensures { result ≡ transfer_end rect.now offset width }
{
    u128::from(offset)
        + 4 * u128::from(width) * (u128::from(rect.height) - 1)
        + 4 * u128::from(rect.width)
}
