//! Who plugs and unplugs displays.

ghost use Rattle.std.specs.Prelude.{◌≡◌, ◌↔◌, true};
ghost use Rattle.vg_client_holds.specs.Host.{IsPart};

use crate::act::{Act, What};
use crate::holds::Holds;
use vg_limits::version_2::{MOST_HEIGHT, MOST_WIDTH};

/// Whether an act is one of its client's part: the host's acts are its own.
pub fn is_part(holds: &Holds, act: &Act) -> bool
    ensures { (result ≡ true) ↔ IsPart holds.now act.now }
{
    match act {
        Act::Mode {
            scanout,
            width,
            height,
        } => {
            holds.host
                && *scanout < holds.displays
                && 1 <= *width
                && *width <= MOST_WIDTH
                && 1 <= *height
                && *height <= MOST_HEIGHT
        }
        Act::Unplug { scanout } => holds.host && *scanout < holds.displays,
        Act::Enter | Act::Await { .. } | Act::Leave => true,
        Act::Denied { what: What::Name } => true,
        _ => !holds.host,
    }
}
