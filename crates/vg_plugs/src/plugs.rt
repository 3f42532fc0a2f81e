//! The mode of each display, and the event bit.

ghost use Rattle.std.specs.Prelude.{◌≡◌, ◌≤◌, length, map, take, IfOk, Some};
ghost use Rattle.std.specs.List.{All};
ghost use Rattle.vg_wire.specs.Modes.{trimmed};
ghost use Rattle.vg_plugs.specs.Plugs.{FitsDisplay, IsSize, cleared, is_size, mode_at, plugged, unplugged, with_displays, with_mode};

use std::alloc::{AllocError, Global};
use std::marker::Model;
use vg_limits::version_2::{MOST_HEIGHT, MOST_WIDTH};
use vg_wire::Modes;

/// The mode of each display, its width and height in pixels, or none where nothing is plugged; and the event bit, which says that
/// one was plugged or unplugged since it was last cleared (VIRTIO 1.2, 5.7.4, VIRTIO_GPU_EVENT_DISPLAY).
#[derive(Drop)]
pub struct Plugs {
    modes: Vec<Option<(u32, u32)>>,
    changed: bool,
}

impl Model for Plugs {
    ghost use Rattle.std.specs.List.{All};
    ghost use Rattle.vg_plugs.specs.Plugs.{FitsDisplay, PlugState};

    ghost Value = { PlugState };

    ghost view = { λ p. record { modes = p.modes.items; changed = p.changed } };

    ghost invariant = { λ p. All FitsDisplay p.modes.items };
}

/// Whether a display can have this width and height in pixels.
pub fn is_size(width: u32, height: u32) -> bool
    ensures { result ≡ is_size width height }
{
    1 <= width && width <= MOST_WIDTH && 1 <= height && height <= MOST_HEIGHT
}

/// A mode for each size.
fn enabled(alloc: Global, displays: &[(u32, u32)]) -> Result<Vec<Option<(u32, u32)>>, AllocError>
    ensures { IfOk result (λ modes. modes.items ≡ map Some displays.now) }
{
    displays.iter().map(|size| Some(*size)).collect(alloc)
}

/// How many of these modes are left where those that are none are taken from the end.
fn trimmed_count(modes: &[Option<(u32, u32)>]) -> usize
    ensures trimmed { trimmed modes.now ≡ take result modes.now }
    ensures within { result ≤ length modes.now }
{
    let mut left = modes.len();
    while left > 0 && modes[left - 1].is_none() {
        left -= 1;
    }
    left
}

impl Plugs {
    /// Displays of these sizes in pixels, with the event bit clear.
    pub fn new(alloc: Global, displays: &[(u32, u32)]) -> Result<Plugs, AllocError>
        requires { All IsSize displays.now }
        ensures { IfOk result (λ plugs. plugs ≡ with_displays displays.now) }
    {
        let modes = enabled(alloc, displays)?;
        Ok(Plugs {
            modes,
            changed: false,
        })
    }

    /// The mode of each display, from scanout 0.
    pub fn modes(&self) -> &[Option<(u32, u32)>]
        ensures modes { result.now ≡ self.now.modes }
        ensures fit { All FitsDisplay self.now.modes }
    {
        self.modes.as_slice()
    }

    /// The display has this size now, and the event bit is set. Nothing changes where there is no such display, or it can't have
    /// that size.
    pub fn plug(&mut self, scanout: u32, width: u32, height: u32)
        ensures { self.new ≡ plugged scanout width height self.old }
    {
        if is_size(width, height) {
            self.put(scanout, Some((width, height)));
        }
    }

    /// The display has no mode any more, and the event bit is set. Nothing changes where there is no such display.
    pub fn unplug(&mut self, scanout: u32)
        ensures { self.new ≡ unplugged scanout self.old }
    {
        self.put(scanout, None);
    }

    fn put(&mut self, scanout: u32, mode: Option<(u32, u32)>)
        requires { FitsDisplay mode }
        ensures { self.new ≡ with_mode scanout mode self.old }
    {
        if let Some(place) = self.modes.get_mut(scanout as usize) {
            *place = mode;
            self.changed = true;
        }
    }

    /// Whether the event bit is set.
    pub fn changed(&self) -> bool
        ensures { result ≡ self.now.changed }
    {
        self.changed
    }

    /// Clears the event bit.
    pub fn clear(&mut self)
        ensures { self.new ≡ cleared self.old }
    {
        self.changed = false;
    }

    /// The display's mode. None where there is no such display, or it has none.
    pub fn mode(&self, scanout: u32) -> Option<(u32, u32)>
        ensures mode { result ≡ mode_at scanout self.now.modes }
        ensures fits { FitsDisplay result }
    {
        self.modes.get(scanout as usize).copied().flatten()
    }

    /// The modes as GET_DISPLAY_INFO has them (VIRTIO 1.2, 5.7.6.8).
    pub fn told(&self, alloc: Global) -> Result<Modes, AllocError>
        requires { length self.now.modes ≤ 16 }
        ensures { IfOk result (λ modes. modes ≡ trimmed self.now.modes) }
    {
        let modes = self.modes.as_slice();
        let modes = modes[..trimmed_count(modes)].to_vec(alloc)?;
        Ok(Modes::from_vec(modes))
    }
}
