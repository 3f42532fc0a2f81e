//! The 2D resources by their ids (VIRTIO 1.2, 5.7.6.8).

ghost use Rattle.std.specs.Prelude.{◌≡◌, ◌<◌, ◌≤◌, [], Some, None, ◌+◌, IfOk, IfErr, OnOk, OnErr, IfSome, ◌*◌, false, is_some, length, option_copied, true};
ghost use Rattle.std.specs.List.{All};
ghost use Rattle.std.specs.Map.{values_of};
ghost use Rattle.std.specs.Option.{option_map};
ghost use Rattle.vg_resource.specs.Resource.{IsWhole, blank, create, create_refusals, is_here, is_lent, pixel_bytes, pixels_at, remove, resource_at, resource_of, with_lent, with_new, with_pixels, without_lent};
ghost use Rattle.vg_refusals.specs.Refusals.{refusal_of};
ghost use Rattle.vg_formats.specs.Formats.{format_of};

use crate::pixels::Pixels;
use std::alloc::{AllocError, Global};
use std::collections::BTreeMap;
use std::marker::Model;
use vg_formats::{Format, pixel_bytes};
use vg_list::Seq;
use vg_places::zeros;
use vg_wire::kinds::{ERR_INVALID_PARAMETER, ERR_INVALID_RESOURCE_ID, ERR_OUT_OF_MEMORY};

/// How many bytes the pixels of all resources may have.
const MOST_PIXEL_BYTES: u64 = 134_217_728;

/// A 2D resource as clauses see it: width and height in pixels, and its pixels, row by row, four bytes each.
#[derive(Drop)]
pub struct Resource {
    pub width: u32,
    pub height: u32,
    pub format: Format,
    pub pixels: Seq<u8>,
}

/// A 2D resource, whose pixels may be lent.
#[derive(Drop)]
pub struct Surface {
    pub width: u32,
    pub height: u32,
    pub format: Format,
    pub pixels: Pixels,
}

/// The resources by their ids.
#[derive(Drop)]
pub struct Resources {
    map: BTreeMap<u32, Surface>,
    /// How many bytes their pixels have.
    bytes: u64,
}

impl Model for Resources {
    ghost use Rattle.std.specs.Prelude.{◌≡◌, ◌≤◌};
    ghost use Rattle.std.specs.List.{All};
    ghost use Rattle.std.specs.Map.{values_of};
    ghost use Rattle.vg_resource.specs.Resource.{IsWhole, ResourceState, is_lent, on_values, pixel_bytes, resource_of};

    ghost Value = { ResourceState };

    ghost view = { λ r. record { resources = on_values resource_of r.map.entries; lent = on_values is_lent r.map.entries } };

    ghost invariant = { λ r. (r.bytes ≡ pixel_bytes (on_values resource_of r.map.entries)) × (r.bytes ≤ 134217728) × All IsWhole (values_of (on_values resource_of r.map.entries)) };
}

impl Resources {
    /// No resources, which takes no memory.
    pub fn new(alloc: Global) -> Resources
        ensures { result ≡ record { resources = []; lent = [] } }
    {
        Resources {
            map: BTreeMap::new(alloc),
            bytes: 0,
        }
    }

    /// Makes a resource of this size in pixels, whose bytes are all 0, or answers the code of its refusal:
    /// ERR_INVALID_RESOURCE_ID for an id that is 0 or in use, ERR_INVALID_PARAMETER for an unknown format or no pixels,
    /// ERR_OUT_OF_MEMORY where the pixels of all resources would pass the limit.
    #[tactic(auto, unfolding(crate::specs::Resource::create))]
    pub fn create(
        &mut self,
        alloc: Global,
        id: u32,
        width: u32,
        height: u32,
        format: u32,
    ) -> Result<Result<(), u32>, AllocError>
        ensures done { IfOk result (λ done. (self.new.resources, done) ≡ create id width height format self.old.resources) }
        ensures loans { IfOk result (λ done. self.new.lent ≡ with_new id done self.old.lent) }
        ensures err { OnErr result (self.new ≡ self.old) }
    {
        let format = match self.judge(id, width, height, format) {
            Ok(format) => format,
            Err(code) => return Ok(Err(code)),
        };
        let size = pixel_bytes(width, height);
        let surface = blank(alloc, width, height, format, size as usize)?;
        self.map.insert(id, surface)?;
        self.bytes += size as u64;
        Ok(Ok(()))
    }

    /// The format of a resource that may be made, or the code of its refusal.
    fn judge(&self, id: u32, width: u32, height: u32, format: u32) -> Result<Format, u32>
        ensures ok { IfOk result (λ known. (format_of format ≡ Some known) × (refusal_of (create_refusals id width height format self.now.resources) ≡ None)) }
        ensures free { OnOk result (resource_at id self.now.resources ≡ None) }
        ensures room { OnOk result ((0 < width) × (0 < height) × (pixel_bytes self.now.resources + 4 * width * height ≤ 134217728)) }
        ensures err { IfErr result (λ code. refusal_of (create_refusals id width height format self.now.resources) ≡ Some code) }
    {
        if id == 0 || self.has(id) {
            return Err(ERR_INVALID_RESOURCE_ID);
        }
        let Some(known) = Format::of(format) else {
            return Err(ERR_INVALID_PARAMETER);
        };
        if width == 0 || height == 0 {
            return Err(ERR_INVALID_PARAMETER);
        }
        if pixel_bytes(width, height) > u128::from(MOST_PIXEL_BYTES - self.bytes) {
            return Err(ERR_OUT_OF_MEMORY);
        }
        Ok(known)
    }

    /// Takes the resource away, or answers ERR_INVALID_RESOURCE_ID where there is none.
    #[tactic(auto, unfolding(crate::specs::Resource::remove))]
    pub fn remove(&mut self, id: u32) -> Result<(), u32>
        ensures done { (self.new.resources, result) ≡ remove id self.old.resources }
        ensures loans { self.new.lent ≡ without_lent id self.old.lent }
    {
        match self.map.remove(&id) {
            Some(surface) => {
                self.bytes -= surface.pixels.len() as u64;
                Ok(())
            }
            None => Err(ERR_INVALID_RESOURCE_ID),
        }
    }

    /// How many bytes the pixels of all resources have.
    pub fn bytes(&self) -> u64
        ensures { result ≡ pixel_bytes self.now.resources }
    {
        self.bytes
    }

    /// A law, and no work: each resource has its pixels.
    pub fn are_whole(&self)
        ensures { All IsWhole (values_of self.now.resources) }
    {
        let _ = &self.map;
    }

    /// The resource of this id.
    pub fn get(&self, id: u32) -> Option<&Surface>
        ensures value { option_map resource_of (option_copied result) ≡ resource_at id self.now.resources }
        ensures whole { IfSome result (λ surface. IsWhole (resource_of surface.now)) }
    {
        let Some(surface) = self.map.get(&id) else {
            return None;
        };
        Some(surface)
    }

    /// Whether there is a resource of this id.
    fn has(&self, id: u32) -> bool
        ensures { result ≡ is_some (resource_at id self.now.resources) }
    {
        self.get(id).is_some()
    }

    /// Lends the pixels of a resource, row by row, four bytes each, which takes no memory and copies none. None exactly where there is no
    /// such resource or they are lent. What is seen of them stays.
    pub fn lend(&mut self, id: u32) -> Option<Vec<u8>>
        ensures same { self.new.resources ≡ self.old.resources }
        ensures loans { self.new.lent ≡ with_lent id true self.old.lent }
        ensures here { is_some result ≡ is_here id self.old.lent }
        ensures pixels { IfSome result (λ pixels. Some pixels.items ≡ pixels_at id self.old.resources) }
    {
        let Some(surface) = self.map.get_mut(&id) else {
            return None;
        };
        surface.pixels.lend()
    }

    /// Brings pixels back to the resource that has lent them, as many as it has, which may be others now. It takes no memory.
    pub fn restore(&mut self, id: u32, pixels: Vec<u8>)
        requires { option_map length (pixels_at id self.old.resources) ≡ Some (length pixels.items) }
        ensures same { IfSome (resource_at id self.old.resources) (λ resource. self.new.resources ≡ with_pixels id resource pixels.items self.old.resources) }
        ensures loans { self.new.lent ≡ with_lent id false self.old.lent }
    {
        let surface = self.map.get_mut(&id).unwrap();
        surface.pixels.restore(pixels);
    }
}

#[tactic(auto, unfolding(crate::specs::Resource::blank))]
fn blank(
    alloc: Global,
    width: u32,
    height: u32,
    format: Format,
    size: usize,
) -> Result<Surface, AllocError>
    requires { size ≡ 4 * width * height }
    ensures blank { IfOk result (λ surface. resource_of surface ≡ blank width height format) }
    ensures here { IfOk result (λ surface. surface.pixels.lent ≡ false) }
{
    let pixels = Pixels::of(zeros(alloc, size)?);
    Ok(Surface {
        width,
        height,
        format,
        pixels,
    })
}
