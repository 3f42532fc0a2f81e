//! What screens stand on once the frames are taken.

ghost use Rattle.std.specs.Prelude.{IfOk};
ghost use Rattle.vg_scanout.specs.Panels.{AreUnframed, ArePanels, IsUnframed, IsPanel};

use crate::panel::{Ground, Panel};
use crate::scanout::Frame;
use std::alloc::{AllocError, Global};

/// Of each scanout what its screen stands on without these frames, if it is another ground.
pub(crate) fn own_grounds(
    alloc: Global,
    panels: &[Option<Panel>],
    frames: &[Frame],
) -> Result<Vec<Option<Ground>>, AllocError>
    requires { ArePanels frames.now panels.now }
    ensures { IfOk result (λ grounds. AreUnframed frames.now grounds.items panels.now) }
{
    let mut grounds = Vec::new(alloc);
    for i in 0..panels.len() {
        let ground = own_ground(alloc, &panels[i], frames)?;
        grounds.push(ground)?;
    }
    Ok(grounds)
}

/// A ground for a screen that stands on one of these frames: the frame's own strips.
fn own_ground(
    alloc: Global,
    panel: &Option<Panel>,
    frames: &[Frame],
) -> Result<Option<Ground>, AllocError>
    requires { IsPanel frames.now panel.now }
    ensures { IfOk result (λ own. IsUnframed frames.now own panel.now) }
{
    let Some(panel) = panel else { return Ok(None) };
    match &panel.base {
        Ground::Blank => Ok(None),
        Ground::Shared(number) => {
            let pixels = frames[*number].pixels.share(alloc)?;
            Ok(Some(Ground::Kept(pixels)))
        }
        Ground::Kept(_) => Ok(None),
    }
}
