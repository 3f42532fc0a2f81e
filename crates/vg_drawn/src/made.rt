//! The sets of the frames that a display has made since.

ghost use Rattle.std.specs.Prelude.{◌≡◌, ◌≤◌, length, IfOk, OnOk};
ghost use Rattle.vg_drawn.specs.NewFramesWithin.{AreAdded, AreOfNow, IsOfNow, set_of};

use crate::frame::frame_clients;
use std::alloc::{AllocError, Global};
use vg_device::Device;
use vg_scanout::Frame;

/// Adds the set of each frame that the display has made since.
pub(crate) fn add_sets(
    alloc: Global,
    display: &Device,
    sets: &mut Vec<u64>,
) -> Result<(), AllocError>
    requires cursors { length display.now.scanouts.screens ≤ length display.now.cursors }
    requires frames { length sets.old.items ≤ length display.now.scanouts.frames }
    requires made { AreOfNow display.now (length sets.old.items) }
    ensures { OnOk result (AreAdded display.now sets.old.items sets.new.items) }
{
    for n in sets.len()..display.frames().len() {
        let set = set_of(alloc, display, &display.frames()[n])?;
        sets.push(set)?;
    }
    Ok(())
}

/// The clients of a frame that is made of the display's screen and cursor as they are now.
fn set_of(alloc: Global, display: &Device, frame: &Frame) -> Result<u64, AllocError>
    requires cursors { length display.now.scanouts.screens ≤ length display.now.cursors }
    requires made { IsOfNow display.now frame.now }
    ensures { IfOk result (λ set. set ≡ set_of display.now frame.now) }
{
    display.scanouts().are_screens();
    let screen = display.scanouts().screen_pixels(alloc, frame.scanout)?;
    let look = display.cursors().look(frame.scanout);
    Ok(frame_clients(&look, frame.width, frame.height, screen.as_slice()))
}
