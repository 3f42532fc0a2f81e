//! What commands mean for each pixel (VIRTIO 1.2, 5.7.6.8 and 5.7.6.10): laws on a display's own steps, each the contract of a
//! function that does no work.

ghost use Rattle.std.specs.Prelude.{◌≡◌, ◌+◌, ◌*◌, ℕ, List, length};
ghost use Rattle.vg_formats.specs.declared.rect.Rect.{Rect};
ghost use Rattle.vg_scanout.specs.FrameOf.{MakesFrames};
ghost use Rattle.vg_scanout.specs.Scanout.{Screen};
ghost use Rattle.vg_scanout.specs.Touched.{MakesTouched};
ghost use Rattle.vg_wire_ext.specs.declared.command.Command.{Command};
ghost use Rattle.vg_wire_ext.specs.declared.response.Response.TheVariants as responses;
ghost use Rattle.vg_wire.specs.declared.two_d.Command2d.TheVariants as commands;
ghost use Rattle.vg_device.specs.Pixels.{CopiesEachPixel, ShowsEachPixel, ShowsScreen};
ghost use Rattle.vg_device.specs.State.{counted};
ghost use Rattle.vg_device.specs.Step.{command_step, two_d_step};

use crate::device::Device;
use vg_scanout::a_flush_makes_frames_of_what_it_touches;

impl Device {
    /// A law, and no work: after RESOURCE_FLUSH that is answered OK_NODATA each pixel of each screen that is bound to the
    /// resource is the resource's pixel at its point, as the format is shown (blue, green, red, alpha), where the
    /// flushed rectangle covers that point, and is else as before. Rectangles are in pixels of the resource. Pixel (u, v) of a blob is
    /// the four bytes at `offset + stride * v + 4 * u` of its guest pages as they are then, by the scanout's offset and stride in bytes.
    pub fn a_flush_shows_each_pixel(&self)
        ensures { (rect : Rect) (id : ℕ) → (two_d_step (counted self.now) (commands.Flush rect id)).1 ≡ responses.Nodata
            → ShowsEachPixel rect id self.now (two_d_step (counted self.now) (commands.Flush rect id)).0 }
    {
        let _ = &self.setup;
        self.resources.are_whole();
        self.scanouts.are_screens();
    }

    /// A law, and no work: after TRANSFER_TO_HOST_2D that is answered OK_NODATA pixel (x + i, y + j) of the resource, in
    /// column i and row j of the rectangle at (x, y), is the four bytes of the backing from
    /// `offset + 4 * width * j + 4 * i` on, with the resource's width in pixels, and each other pixel is as before. Of a blob, which has
    /// no pixels beside guest memory, nothing changes.
    pub fn a_transfer_copies_each_pixel(&self)
        ensures { (rect : Rect) (offset id : ℕ) → (two_d_step (counted self.now) (commands.Transfer rect offset id)).1 ≡ responses.Nodata
            → CopiesEachPixel rect offset id self.now (two_d_step (counted self.now) (commands.Transfer rect offset id)).0 }
    {
        let _ = &self.setup;
        self.resources.are_whole();
        self.backings.a_transfer_copies_each_pixel(&self.pages);
    }

    /// A law, and no work: each frame that a command makes, whatever context its header names, shows its scanout's screen, pixel by pixel, and over it the scanout's
    /// cursor where that is shown, both as they are once the command is done. The frames of before stay.
    pub fn each_frame_is_of_its_screen(&self)
        ensures { (context : ℕ) (command : Command) → MakesFrames (self.now.entries + 1) (command_step (counted self.now) context command).0.cursors self.now.scanouts (command_step (counted self.now) context command).0.scanouts }
    {
        let _ = &self.setup;
        self.scanouts.each_frame_is_of_its_screen();
    }

    /// A law, and no work: RESOURCE_FLUSH that is answered OK_NODATA makes a frame of each scanout that is bound to the resource and
    /// has a pixel in the flushed rectangle, and of no other, once each, in the order of the scanouts' numbers.
    pub fn a_flush_makes_frames_of_what_it_touches(&self)
        ensures { (rect : Rect) (id : ℕ) → (two_d_step (counted self.now) (commands.Flush rect id)).1 ≡ responses.Nodata
            → MakesTouched id rect self.now.scanouts (two_d_step (counted self.now) (commands.Flush rect id)).0.scanouts }
    {
        a_flush_makes_frames_of_what_it_touches();
    }
}

/// A law, and no work: what `Device::a_flush_shows_each_pixel` says of a screen tells all its pixels, so that two screens of its
/// size of which that is true have the same.
pub fn each_pixel_tells_the_flush()
    ensures { (id : ℕ) (rect : Rect) (value : ℕ → ℕ → List ℕ) (old one other : Screen)
        → length one.pixels ≡ 4 * old.binding.rect.width * old.binding.rect.height → length other.pixels ≡ 4 * old.binding.rect.width * old.binding.rect.height
        → ShowsScreen id rect value old one → ShowsScreen id rect value old other → one.pixels ≡ other.pixels }
{}
