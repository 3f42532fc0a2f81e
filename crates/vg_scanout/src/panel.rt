//! What is kept of a scanout that is bound.

ghost use Rattle.std.specs.Prelude.{◌≡◌, ℕ, ◌*◌, List, Some, None, IfOk, if◌then◌else◌, option_copied};
ghost use Rattle.vg_formats.specs.Pixels.{HasPixels, common_of};
ghost use Rattle.vg_scanout.specs.Panels.{IsGround, IsPanel, IsSmall, is_touched, pixels_in};

use crate::scanout::{Binding, Frame};
use std::alloc::{AllocError, Global};
use vg_formats::{Rect, pixel_bytes};
use vg_places::zeros;
use vg_shared_bytes::Strips;

/// Where the pixels of a screen stand.
#[derive(Drop)]
pub(crate) enum Ground {
    /// All its bytes are 0.
    Blank,
    /// They are those of the frame of this number.
    Shared(usize),
    /// The screen has strips of its own: its frame has a cursor in it, or the frames were taken.
    Kept(Strips),
}

/// A scanout that is bound.
#[derive(Drop)]
pub(crate) struct Panel {
    pub(crate) binding: Binding,
    pub(crate) base: Ground,
}

impl Panel {
    /// The pixels of the screen that a flush of `rect` touches, if it has one and is bound to the resource.
    pub(crate) fn touched(&self, resource: u32, rect: &Rect) -> Option<Rect>
        ensures { result ≡ (if is_touched resource rect.now (Some self.now) then Some (common_of self.now.binding.rect rect.now) else None) }
    {
        if self.binding.resource == resource {
            self.binding.rect.meet(rect)
        } else {
            None
        }
    }

    /// How many bytes the screen has.
    pub(crate) fn size(&self) -> u64
        requires { IsSmall (Some self.now) }
        ensures { result ≡ 4 * self.now.binding.rect.width * self.now.binding.rect.height }
    {
        pixel_bytes(self.binding.rect.width, self.binding.rect.height) as u64
    }

    /// A copy of the screen's pixels.
    pub(crate) fn pixels(&self, alloc: Global, frames: &[Frame]) -> Result<Vec<u8>, AllocError>
        requires { IsPanel frames.now (Some self.now) }
        ensures { IfOk result (λ pixels. pixels.items ≡ pixels_in frames.now self.now) }
    {
        match &self.base {
            Ground::Blank => zeros(alloc, self.size() as usize),
            Ground::Shared(number) => frames[*number].pixels.to_vec(alloc),
            Ground::Kept(pixels) => pixels.to_vec(alloc),
        }
    }

    /// The strips in which the screen's pixels stand, if they do.
    pub(crate) fn strips<'a>(&'a self, frames: &'a [Frame]) -> Option<&'a Strips>
        ensures { (pixels : List ℕ) → option_copied result ≡ Some pixels → pixels ≡ pixels_in frames.now self.now }
    {
        match &self.base {
            Ground::Blank => None,
            Ground::Shared(number) => match frames.get(*number) {
                Some(frame) => Some(&frame.pixels),
                None => None,
            },
            Ground::Kept(pixels) => Some(pixels),
        }
    }

    /// Pixels to show this part of the screen over: a copy of its own, but where the part is all of it.
    pub(crate) fn under(
        &self,
        alloc: Global,
        frames: &[Frame],
        part: &Rect,
    ) -> Result<Vec<u8>, AllocError>
        requires panel { IsPanel frames.now (Some self.now) }
        requires some { HasPixels part.now }
        ensures { IfOk result (λ pixels. IsGround self.now.binding part.now (pixels_in frames.now self.now) pixels.items) }
    {
        if *part != self.binding.rect {
            return self.pixels(alloc, frames);
        }
        let pixels = zeros(alloc, self.size() as usize)?;
        Ok(pixels)
    }
}
