//! Laws of where the bytes of a display come from, each the contract of a function that does no work.

ghost use Rattle.std.specs.Prelude.{◌≡◌, ◌<◌, ◌/◌, ◌^◌, ℕ, List, length, Some, slice_get};
ghost use Rattle.vg_client_holds.specs.declared.setup.Setup.{Setup};
ghost use Rattle.vg_scanout.specs.declared.scanout.Frame.{Frame};
ghost use Rattle.vg_machine.specs.Entries.{Entry};
ghost use Rattle.vg_machine.specs.Order.{Sound};
ghost use Rattle.vg_origin.specs.Origin.{AreBacked, HasPage, IsFetched, IsOfBuffer, IsReserve, IsStore, state_at, tags_at};
ghost use Rattle.vg_origin.specs.Shown.{AreFair, AreShown};

/// A law, and no work: at each moment of each history the tag of a byte of memory that lies in a page of a buffer says that the byte
/// was cleared, or stored in this page by an entry that stored in this buffer, of a client that held it, and that the page has been the
/// buffer's since.
pub fn memory_is_of_its_buffer()
    ensures { (setup : Setup) (H : List Entry) (i key place : ℕ) → HasPage setup H key (place / 4096) i → IsOfBuffer setup H key (place / 4096) i ((tags_at setup H i).memory place) }
{}

/// A law, and no work: where at each moment all that is attached to a resource lies in pages of the buffer with its number, the tag of a
/// byte of a resource's pixels says that it was cleared, or copied by an entry from a page of that buffer, which the buffer had had since
/// an entry stored it there.
pub fn pixels_are_of_their_buffer()
    ensures { (setup : Setup) (H : List Entry) → ((i : ℕ) → AreBacked setup H i) → (i id place : ℕ) → IsFetched setup H id i ((tags_at setup H i).pixels id place) }
{}

/// A law, and no work: where at each moment all that is attached to a resource lies in pages of the buffer with its number, and each
/// scanout that is bound, or whose cursor is updated, is leased to a client that has the resource's buffer, each tag of each byte of a
/// frame says that the byte was cleared, or is opaque, or was stored, copied and shown from one buffer: that had the page from the store
/// to the copy, to whose resource the page was attached as the copy came, to which the scanout was bound as it was shown, or by which
/// its cursor was updated, and which the client had then that the scanout is leased to as the frame is made.
pub fn frames_are_of_their_buffers()
    ensures { (setup : Setup) (H : List Entry) → AreFair setup H → (i n : ℕ) (frame : Frame) → slice_get (state_at setup H i).scanouts.frames n ≡ Some frame
        → (place : ℕ) → AreShown setup H frame.scanout frame.entry ((tags_at setup H i).frames n place) }
{}

/// A law, and no work: an entry that stores in a buffer which has a page stands behind the one that reserved the buffer and gave it the
/// page; so what a page shows was never stored there for a former buffer.
pub fn stores_follow_their_reserve()
    ensures { (setup : Setup) (H : List Entry) (key page n : ℕ) → IsStore setup H key n → HasPage setup H key page n → (r : ℕ) × (r < n) × IsReserve setup H key page r }
{}

/// A law, and no work: in a sound history the tag of a byte of a resource's pixels says that it was cleared, or copied by an entry from a
/// page of the buffer with the resource's number, which the buffer had had since an entry stored it there.
pub fn pixels_have_origins()
    ensures { (setup : Setup) (H : List Entry) → Sound setup H → (i id place : ℕ) → IsFetched setup H id i ((tags_at setup H i).pixels id place) }
{}

/// A law, and no work: in a sound history of fewer than 2^31 entries each tag of each byte of a frame says that the byte was cleared, or
/// is opaque, or was stored, copied and shown from one buffer: that had the page from the store to the copy, to whose resource the page
/// was attached as the copy came, to which the scanout was bound as it was shown, or by which its cursor was updated, and which the
/// client had then that the scanout is leased to as the frame is made.
pub fn frames_have_origins()
    ensures { (setup : Setup) (H : List Entry) → Sound setup H → length H < 2 ^ 31 → (i n : ℕ) (frame : Frame) → slice_get (state_at setup H i).scanouts.frames n ≡ Some frame
        → (place : ℕ) → AreShown setup H frame.scanout frame.entry ((tags_at setup H i).frames n place) }
{}
