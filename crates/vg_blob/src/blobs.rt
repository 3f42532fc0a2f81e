//! The blob resources by their ids (VIRTIO 1.2, 5.7.6.8).

ghost use Rattle.std.specs.List.{list_any};
ghost use Rattle.std.specs.Prelude.{◌≡◌, ◌<◌, ◌^◌, ℕ, List, [], length, IfOk, IfSome, OnErr, All, is_some, option_copied};
ghost use Rattle.std.specs.Option.{option_map};
ghost use Rattle.std.specs.Map.{values_of};
ghost use Rattle.vg_pages.specs.Lending.{AreFlagged};
ghost use Rattle.vg_pages.specs.Memory.{Memory};
ghost use Rattle.vg_blob.specs.Blobs.{IsBlob, IsHeld, blob_at, blob_bytes, create, entries_of, remove, size_of};
ghost use Rattle.vg_backing.specs.Backing.{touches};

use std::alloc::{AllocError, Global};
use std::collections::BTreeMap;
use std::marker::Model;
use vg_backing::Backing;
use vg_formats::MemEntry;
use vg_pages::Pages;
use vg_places::zeros;
use vg_wire::kinds::{ERR_INVALID_PARAMETER, ERR_INVALID_RESOURCE_ID};

/// The memory of a blob is the guest's.
const BLOB_MEM_GUEST: u32 = 1;

/// All of a blob's flags that there are.
const BLOB_FLAGS: u32 = 7;

/// A blob: how many bytes it has, which are the first ones of these ranges of guest memory.
#[derive(Debug, Drop)]
pub struct Blob {
    size: u64,
    entries: Backing,
}

/// The blobs by their ids.
#[derive(Debug, Drop)]
pub struct Blobs {
    map: BTreeMap<u32, Blob>,
}

impl Model for Blobs {
    ghost use Rattle.std.specs.Prelude.{ℕ, List};
    ghost use Rattle.std.specs.List.{All};
    ghost use Rattle.std.specs.Map.{values_of};
    ghost use Rattle.vg_blob.specs.declared.blobs.Blob.{Blob};
    ghost use Rattle.vg_blob.specs.Blobs.{IsBlob};

    ghost Value = { List (ℕ × Blob) };

    ghost view = { λ b. b.map.entries };

    ghost invariant = { λ b. All IsBlob (values_of b.map.entries) };
}

impl Blobs {
    /// No blobs, which takes no memory.
    pub fn new(alloc: Global) -> Blobs
        ensures { result ≡ [] }
    {
        Blobs {
            map: BTreeMap::new(alloc),
        }
    }

    /// Makes a blob of this many bytes, the first ones of the entries, or answers the code of its refusal:
    /// ERR_INVALID_RESOURCE_ID for an id that is 0 or a blob's, ERR_INVALID_PARAMETER for another memory than the guest's, a flag
    /// that there isn't, no bytes, bad entries, or fewer bytes of entries than the blob is to have.
    #[tactic(auto, unfolding(crate::specs::Blobs::create))]
    pub fn create(
        &mut self,
        alloc: Global,
        pages: &Pages,
        id: u32,
        mem: u32,
        flags: u32,
        size: u64,
        entries: &[MemEntry],
    ) -> Result<Result<(), u32>, AllocError>
        requires number { length entries.now < 2 ^ 32 }
        ensures done { IfOk result (λ done. (self.new, done) ≡ create pages.now id mem flags size entries.now self.old) }
        ensures held { All (IsHeld pages.now) self.old → All (IsHeld pages.now) self.new }
        ensures err { OnErr result (self.new ≡ self.old) }
    {
        if id == 0 || self.map.contains_key(&id) {
            return Ok(Err(ERR_INVALID_RESOURCE_ID));
        }
        if mem != BLOB_MEM_GUEST || (flags > BLOB_FLAGS || size == 0) {
            return Ok(Err(ERR_INVALID_PARAMETER));
        }
        let Some(entries) = Backing::new(alloc, pages, entries)? else {
            return Ok(Err(ERR_INVALID_PARAMETER));
        };
        if entries.length() < size {
            return Ok(Err(ERR_INVALID_PARAMETER));
        }
        self.map.insert(id, Blob { size, entries })?;
        Ok(Ok(()))
    }

    /// Takes the blob away, or answers ERR_INVALID_RESOURCE_ID where there is none. Its bytes stay as they are.
    #[tactic(auto, unfolding(crate::specs::Blobs::remove))]
    pub fn remove(&mut self, id: u32) -> Result<(), u32>
        ensures done { (self.new, result) ≡ remove id self.old }
        ensures held { (memory : Memory) → All (IsHeld memory) self.old → All (IsHeld memory) self.new }
    {
        match self.map.remove(&id) {
            Some(_) => Ok(()),
            None => Err(ERR_INVALID_RESOURCE_ID),
        }
    }

    /// Whether there is a blob of this id.
    pub fn has(&self, id: u32) -> bool
        ensures { result ≡ is_some (blob_at id self.now) }
    {
        self.map.contains_key(&id)
    }

    /// How many bytes the blob of this id has.
    pub fn size(&self, id: u32) -> Option<u64>
        ensures { result ≡ option_map (λ blob. blob.size) (blob_at id self.now) }
    {
        match self.map.get(&id) {
            Some(blob) => Some(blob.size),
            None => None,
        }
    }

    /// The entries of the blob of this id, in order.
    pub fn entries(&self, id: u32) -> Option<&[MemEntry]>
        ensures { option_copied result ≡ option_map (λ blob. blob.entries) (blob_at id self.now) }
    {
        match self.map.get(&id) {
            Some(blob) => Some(blob.entries.entries()),
            None => None,
        }
    }

    /// The bytes of the blob of this id, as guest memory has them now.
    pub fn surface(
        &self,
        alloc: Global,
        pages: &Pages,
        id: u32,
    ) -> Result<Option<Vec<u8>>, AllocError>
        requires held { All (IsHeld pages.now) self.now }
        ensures bytes { IfOk result (λ surface. option_map (λ bytes. bytes.items) surface ≡ option_map (blob_bytes pages.now) (blob_at id self.now)) }
        ensures size { IfOk result (λ surface. IfSome surface (λ bytes. length bytes.items ≡ size_of (blob_at id self.now))) }
    {
        let Some(blob) = self.map.get(&id) else {
            return Ok(None);
        };
        let mut bytes = zeros(alloc, blob.size as usize)?;
        blob.entries.read(pages, 0, &mut bytes);
        Ok(Some(bytes))
    }

    /// Whether some byte of the page lies in an entry of the blob of this id.
    pub fn touches(&self, id: u32, page: u32) -> bool
        ensures { result ≡ touches page (entries_of (blob_at id self.now)) }
    {
        match self.map.get(&id) {
            Some(blob) => blob.entries.touches(page),
            None => false,
        }
    }

    /// Whether some byte of a page whose flag is set lies in an entry of the blob of this id.
    pub fn touches_some(&self, id: u32, flags: &[bool]) -> bool
        ensures { (pages : List ℕ) → AreFlagged flags.now pages → result ≡ list_any (λ page. touches page (entries_of (blob_at id self.now))) pages }
    {
        match self.map.get(&id) {
            Some(blob) => blob.entries.touches_some(flags),
            None => false,
        }
    }

    /// A law, and no work: each blob has bytes, and no more than its entries.
    pub fn are_blobs(&self)
        ensures { All IsBlob (values_of self.now) }
    {
        let _ = &self.map;
    }
}
