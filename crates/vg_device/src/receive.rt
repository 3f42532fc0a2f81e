//! Resources' pixels as they come from backings (VIRTIO 1.2, 5.7.6.8).

ghost use Rattle.std.specs.Prelude.{◌≡◌, All, IfNone, IfSome};
ghost use Rattle.vg_backing.specs.Backing.{AreHeld};
ghost use Rattle.vg_device.specs.Receive.{receive};

use vg_formats::Rect;
use vg_pages::Pages;
use vg_resource::Resources;
use vg_transfer::{Backings, Region};
use vg_wire::kinds::ERR_INVALID_RESOURCE_ID;

/// Copies a rectangle of the resource from its backing, of which the first byte is that at `offset`, or answers the code of
/// its refusal. None where the pixels are lent.
pub(crate) fn receive(
    resources: &mut Resources,
    id: u32,
    pages: &Pages,
    backings: &Backings,
    rect: &Rect,
    offset: u64,
) -> Option<Result<(), u32>>
    requires held { All (λ entry. AreHeld pages.now entry.1) backings.now }
    ensures done { IfSome result (λ done. (resources.new.resources, done) ≡ receive pages.now id rect.now offset backings.now resources.old.resources) }
    ensures err { IfNone result (resources.new.resources ≡ resources.old.resources) }
    ensures loans { resources.new.lent ≡ resources.old.lent }
{
    let Some(resource) = resources.get(id) else {
        return Some(Err(ERR_INVALID_RESOURCE_ID));
    };
    let region = Region {
        rect: *rect,
        offset,
        width: resource.width,
        height: resource.height,
    };
    let mut pixels = resources.lend(id)?;
    let done = backings.transfer(pages, id, &region, pixels.as_mut_slice());
    resources.restore(id, pixels);
    Some(done)
}
