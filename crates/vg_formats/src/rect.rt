//! Rectangles of pixels.

ghost use Rattle.std.specs.Prelude.{◌≡◌, ◌+◌, ◌*◌, ◌<◌, ◌≤◌, min, max, IfSome, IfNone};

/// A rectangle of pixels (VIRTIO 1.2, 5.7.6.8, struct virtio_gpu_rect): its left column, its top row, and
/// how many columns and rows it has, in pixels. It is empty where one of these is 0. Its right and
/// bottom ends may pass 2^32.
#[derive(Clone, Copy, Debug, PartialEq, Eq)]
pub struct Rect {
    pub x: u32,
    pub y: u32,
    pub width: u32,
    pub height: u32,
}

impl Rect {
    ghost use Rattle.std.specs.Prelude.{◌≡◌, ◌+◌, ◌≤◌, ◌↔◌, IsTrue, IsNone, IfSome, if◌then◌else◌, Some, None};
    ghost use Rattle.vg_formats.specs.Pixels.{AreApart, CoversCommon, HasPixels, LiesWithin, are_meeting, common_of, is_empty, is_inside};

    /// Whether no edge of the rectangle passes an area of `width` columns and `height` rows from 0, 0. An
    /// empty rectangle is judged by its edges too.
    pub fn inside(&self, width: u32, height: u32) -> bool
        ensures value { result ≡ is_inside self.now width height }
        ensures edges { IsTrue result
            ↔ ((self.now.x + self.now.width ≤ width) × (self.now.y + self.now.height ≤ height)) }
    {
        u64::from(self.x) + u64::from(self.width) <= u64::from(width)
            && u64::from(self.y) + u64::from(self.height) <= u64::from(height)
    }

    /// Whether the rectangle has no pixels.
    pub fn is_empty(&self) -> bool
        ensures { result ≡ is_empty self.now }
    {
        self.width == 0 || self.height == 0
    }

    /// The rectangle of the pixels that lie in both, which isn't empty.
    pub fn meet(&self, other: &Rect) -> Option<Rect>
        ensures exact { result ≡ (if are_meeting self.now other.now then Some (common_of self.now other.now) else None) }
        ensures none { IsNone result ↔ AreApart self.now other.now }
        ensures common { IfSome result (λ common. CoversCommon common self.now other.now) }
        ensures pixels { IfSome result (λ common. HasPixels common) }
        ensures within { IfSome result (λ common. LiesWithin common self.now × LiesWithin common other.now) }
    {
        let (x, width) = overlap(self.x, self.width, other.x, other.width)?;
        let (y, height) = overlap(self.y, self.height, other.y, other.height)?;
        Some(Rect {
            x,
            y,
            width,
            height,
        })
    }
}

/// How many bytes so many columns and rows of pixels have, four each.
pub fn pixel_bytes(width: u32, height: u32) -> u128
    ensures { result ≡ 4 * width * height }
{
    4 * u128::from(width) * u128::from(height)
}

/// The common part of two runs of pixels, each given by its first place and its length: its first place and
/// its length.
fn overlap(first: u32, length: u32, other: u32, other_length: u32) -> Option<(u32, u32)>
    ensures none { IfNone result (min (first + length) (other + other_length) ≤ max first other) }
    ensures some { IfSome result (λ common. 0 < common.1) }
    ensures start { IfSome result (λ common. common.0 ≡ max first other) }
    ensures end { IfSome result (λ common. common.0 + common.1 ≡ min (first + length) (other + other_length)) }
{
    let start = first.max(other);
    let end = (u64::from(first) + u64::from(length)).min(
        u64::from(other) + u64::from(other_length),
    );
    if u64::from(start) < end {
        Some((start, (end - u64::from(start)) as u32))
    } else {
        None
    }
}
