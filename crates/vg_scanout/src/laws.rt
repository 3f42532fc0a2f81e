//! What frames mean for each pixel, and which scanouts a flush makes them of (VIRTIO 1.2, 5.7.6.8 and 5.7.6.10): laws, each the
//! contract of a function that does no work.

ghost use Rattle.std.specs.Prelude.{ℕ, List};
ghost use Rattle.vg_cursor.specs.declared.cursor.Cursor.{Cursor};
ghost use Rattle.vg_formats.specs.declared.rect.Rect.{Rect};
ghost use Rattle.vg_scanout.specs.FrameOf.{MakesFrames};
ghost use Rattle.vg_scanout.specs.Scanout.{ScanoutState, flushed, snapped};
ghost use Rattle.vg_scanout.specs.Touched.{MakesTouched};

use crate::scanout::Scanouts;
use vg_cursor::cover_each_pixel;

impl Scanouts {
    /// A law, and no work: each frame that is made shows its scanout's screen as it is then, pixel by pixel, and over it the
    /// scanout's cursor where that is shown.
    pub fn each_frame_is_of_its_screen(&self)
        ensures flushed { (entry id : ℕ) (rect : Rect) (surface : List ℕ) (cursors : List Cursor)
            → MakesFrames entry cursors self.now (flushed entry id rect surface cursors self.now) }
        ensures snapped { (entry scanout : ℕ) (cursors : List Cursor)
            → MakesFrames entry cursors self.now (snapped entry cursors scanout self.now) }
    {
        self.are_screens();
        cover_each_pixel();
    }
}

/// A law, and no work: a flush makes a frame of each scanout that is bound to the resource and has a pixel in the flushed rectangle,
/// and of no other, once each, in the order of the scanouts' numbers.
pub fn a_flush_makes_frames_of_what_it_touches()
    ensures { (entry id : ℕ) (rect : Rect) (surface : List ℕ) (cursors : List Cursor) (state : ScanoutState)
        → MakesTouched id rect state (flushed entry id rect surface cursors state) }
{}
