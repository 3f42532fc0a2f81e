//! The driver's steps.

ghost use Rattle.std.specs.Prelude.{◌≡◌, ◌+◌, ◌*◌, ◌%◌, ◌<◌, [], ◌∷◌, ◌++◌, length, ℕ, ◌≤◌, slice_index};
ghost use mathlib.Core.List.{IsPrefix};
ghost use Rattle.vg_split.specs.declared.views.View.TheVariants.{Driver, Note};
ghost use Rattle.vg_split.specs.Plays.{driver_of, laying, writing, written_by, laid, resting_driver, newer_driver, fetched_of, reaped_of};
ghost use Rattle.vg_cargo.specs.Entries.{times, uses, published_as, AreBack};
ghost use Rattle.vg_split.specs.Rule.{stored_at, staged, places_of, published_after, looked_by_driver};
ghost use Rattle.vg_chain.specs.Made.{made, IsCount, IsMeasured, IsNeeded};
ghost use Rattle.vg_split.specs.Tells.{IsOffer, HasReaped};
ghost use Rattle.vg_cargo.specs.Descriptors as layout;

use crate::law::{Line, Pass};
use crate::plays::{
    DriverTakesNote, LooksAtUsed, NotesReaped, Offers, Publishes, Reaps, Settles, StoresAddress,
    StoresRest, TellsFetched,
};
use crate::words::{available_word, rest_word, used_element_word, used_of};
use vg_cargo::Cargo;
use vg_chain::{Descriptor, Extent, Shape};
use vg_history::Tagged;

/// Stores a descriptor at a place.
pub(crate) fn store_descriptor<P: Tagged>(
    line: &Line<P>,
    pass: &mut Pass<P>,
    place: u16,
    descriptor: Descriptor,
)
    requires line { (pass.old.table_id ≡ line.now.shared.table_id) × (line.now.shared.table_id.words ≡ 2 + 4 * line.now.shared.key.count) }
    requires view { pass.old.me ≡ (laying pass.old.me.0, []) }
    requires place { place < line.now.shared.key.count }
    requires free { (uses place (driver_of pass.old.me.0).outs ≡ 0) × (times place (places_of (written_by pass.old.me.0)) ≡ 0) }
    ensures line { (pass.new.table_id ≡ pass.old.table_id) × (pass.new.id ≡ pass.old.id) }
    ensures back { layout.descriptor_from descriptor.addr (layout.rest_word descriptor) ≡ descriptor }
    ensures view { pass.new.me ≡ (writing pass.old.me.0 (written_by pass.old.me.0 ++ record { place = place; addr = descriptor.addr; rest = layout.rest_word descriptor } ∷ []), []) }
{
    let at = 2 + 2 * place as usize;
    line.shared
        .store::<StoresAddress>(pass, at, descriptor.addr);
    line.shared
        .store::<StoresRest>(pass, at + 1, rest_word(descriptor));
}

/// The place at `at`, or 0 past the last.
fn place_at(places: &[u16], at: usize) -> u16
    ensures { result ≡ slice_index places.now at }
{
    if at < places.len() { places[at] } else { 0 }
}

/// Stores the descriptors that a shape has in the ring, one at each of these places.
pub(crate) fn lay<P: Tagged>(
    line: &Line<P>,
    pass: &mut Pass<P>,
    size: u16,
    shape: Shape,
    extent: &Extent,
    places: &[u16],
)
    requires line { (pass.old.table_id ≡ line.now.shared.table_id) × (line.now.shared.table_id.words ≡ 2 + 4 * size) × (line.now.shared.key.count ≡ size) }
    requires view { pass.old.me ≡ (resting_driver pass.old.me.0, []) }
    requires shape { IsCount shape × IsMeasured extent.now.request extent.now.room extent.now.base }
    requires needed { IsNeeded shape extent.now.request extent.now.room (length places.now) }
    requires few { length places.now < 65536 }
    requires free { (p : ℕ) → times p places.now + uses p (driver_of pass.old.me.0).outs ≤ 1 }
    requires below { (p : ℕ) → 0 < times p places.now → p < size }
    ensures line { (pass.new.table_id ≡ pass.old.table_id) × (pass.new.id ≡ pass.old.id) }
    ensures back { AreBack (made shape extent.now.request extent.now.room extent.now.base size places.now).ring }
    ensures view { pass.new.me ≡ (Driver (staged (driver_of pass.old.me.0) (laid (stored_at places.now (made shape extent.now.request extent.now.room extent.now.base size places.now).ring))), []) }
{
    for at in 0..places.len() {
        let head = place_at(places, 0);
        let next = place_at(places, at + 1);
        let descriptor = shape.descriptor(extent, size, head, at as u16, next);
        store_descriptor(line, pass, place_at(places, at), descriptor.unwrap());
    }
}

/// Publishes a cargo whose descriptors were stored: its element, then the index. So many were published before.
pub(crate) fn offer<P: Tagged>(
    line: &Line<P>,
    pass: &mut Pass<P>,
    size: u16,
    published: u64,
    head: u16,
    cargo: Cargo<P>,
)
    requires line { (pass.old.table_id ≡ line.now.shared.table_id) × (line.now.shared.table_id.words ≡ 2 + 4 * size) × (line.now.shared.key.count ≡ size) }
    requires size { 0 < size }
    requires view { pass.old.me ≡ (writing pass.old.me.0 (written_by pass.old.me.0), []) }
    requires count { published ≡ length (driver_of pass.old.me.0).published }
    requires offer { IsOffer P.is_wanted line.now.shared.key.queue size (driver_of pass.old.me.0) (written_by pass.old.me.0) head cargo }
    ensures line { (pass.new.table_id ≡ pass.old.table_id) × (pass.new.id ≡ pass.old.id) }
    ensures view { pass.new.me ≡ (Driver (published_after (driver_of pass.old.me.0) (published_as (places_of (written_by pass.old.me.0)) cargo)), []) }
{
    let element = available_word(size, published);
    line.shared.store::<Offers>(pass, element, u64::from(head));
    let _none = line.shared.exchange(pass, head as usize, Some(cargo));
    line.shared
        .store::<Publishes>(pass, 0, (published + 1) % 65536);
}

/// Loads the used index.
pub fn look_at_used<P: Tagged>(line: &Line<P>, pass: &mut Pass<P>) -> u64
    requires line { (pass.old.table_id ≡ line.now.shared.table_id) × (line.now.shared.table_id.words ≡ 2 + 4 * line.now.shared.key.count) }
    requires view { pass.old.me ≡ (resting_driver pass.old.me.0, []) }
    ensures line { (pass.new.table_id ≡ pass.old.table_id) × (pass.new.id ≡ pass.old.id) }
    ensures view { pass.new.me ≡ (Driver (looked_by_driver (driver_of pass.old.me.0) result), []) }
{
    line.shared.load::<LooksAtUsed>(pass, 1)
}

/// Loads the used element, and takes the cargo from the slot of its head. So many were reaped before.
pub fn take_answer<P: Tagged>(
    line: &Line<P>,
    pass: &mut Pass<P>,
    size: u16,
    reaped: u64,
) -> (u16, u32, Cargo<P>)
    requires line { (pass.old.table_id ≡ line.now.shared.table_id) × (line.now.shared.table_id.words ≡ 2 + 4 * size) × (line.now.shared.table_id.slots ≡ size) × (line.now.shared.key.count ≡ size) }
    requires size { 0 < size }
    requires view { pass.old.me ≡ (newer_driver pass.old.me.0, []) }
    requires count { reaped ≡ length (driver_of pass.old.me.0).reaped }
    ensures line { (pass.new.table_id ≡ pass.old.table_id) × (pass.new.id ≡ pass.old.id) }
    ensures reaped { HasReaped P.is_wanted size (driver_of pass.old.me.0) result.0 result.1 result.2 pass.new.me }
{
    let element = used_element_word(size, reaped);
    let word = line.shared.load::<Reaps>(pass, element);
    let (head, len) = used_of(word);
    let slot = line.shared.exchange(pass, head as usize, None);
    line.shared.load::<Settles>(pass, 0);
    let cargo = slot.unwrap();
    (head, len, cargo)
}

/// A note of what came back.
pub fn note_reaped<P: Tagged>(line: &Line<P>, pass: &mut Pass<P>) -> Pass<P>
    requires line { (pass.old.table_id ≡ line.now.shared.table_id) × (line.now.shared.table_id.words ≡ 2 + 4 * line.now.shared.key.count) }
    requires view { pass.old.me ≡ (resting_driver pass.old.me.0, []) }
    ensures line { (pass.new.table_id ≡ pass.old.table_id) × (pass.new.id ≡ pass.old.id) × (pass.new.me ≡ pass.old.me) }
    ensures note { (result.table_id ≡ pass.old.table_id) × (result.me ≡ (Note [] (driver_of pass.old.me.0).reaped, [])) }
{
    line.shared.split_seat::<NotesReaped>(pass)
}

/// Takes a note in: what it says that was fetched was published.
pub fn take_fetched<P: Tagged>(line: &Line<P>, pass: &mut Pass<P>, note: Pass<P>)
    requires line { (pass.old.table_id ≡ line.now.shared.table_id) × (note.table_id ≡ line.now.shared.table_id) × (line.now.shared.table_id.words ≡ 2 + 4 * line.now.shared.key.count) }
    requires view { pass.old.me ≡ (resting_driver pass.old.me.0, []) }
    requires note { note.me ≡ (Note (fetched_of note.me.0) (reaped_of note.me.0), []) }
    ensures line { (pass.new.table_id ≡ pass.old.table_id) × (pass.new.id ≡ pass.old.id) × (pass.new.me ≡ pass.old.me) }
    ensures fetched { IsPrefix (fetched_of note.me.0) (driver_of pass.old.me.0).published }
{
    line.shared.join_seat::<DriverTakesNote>(pass, note);
    line.shared.load::<TellsFetched>(pass, 0);
}
