//! The device's steps.

ghost use Rattle.std.specs.Prelude.{◌≡◌, ◌+◌, ◌*◌, ◌^◌, ◌<◌, [], length};
ghost use mathlib.Core.List.{IsPrefix};
ghost use Rattle.vg_split.specs.declared.views.View.TheVariants.{Device, Right, Note};
ghost use Rattle.vg_split.specs.Plays.{device_of, resting_device, newer_device, right_of, fetched_of, reaped_of};
ghost use Rattle.vg_cargo.specs.Entries.{Has, heads, held_at, answer_with, without, IsDone};
ghost use Rattle.vg_split.specs.Rule.{set_stage, looked_by_device, completed_after, lent_after, returned_after};
ghost use Rattle.vg_split.specs.declared.views.DeviceStage.TheVariants.{Resting};
ghost use Rattle.vg_split.specs.Tells.{HasTaken, TellsWord};

use crate::law::{Line, Pass};
use crate::plays::{
    Answers, Completes, CutsRight, DeviceTakesNote, Fetches, LooksAtAvailable, Names, NotesFetched,
    Reads, Settles, TakesRight, TellsLent, TellsReaped,
};
use crate::words::{available_word, used_element_word, used_word};
use vg_cargo::Cargo;
use vg_history::Tagged;

/// Loads the available index.
pub fn look_at_available<P: Tagged>(line: &Line<P>, pass: &mut Pass<P>) -> u64
    requires line { (pass.old.table_id ≡ line.now.shared.table_id) × (line.now.shared.table_id.words ≡ 2 + 4 * line.now.shared.key.count) }
    requires view { pass.old.me ≡ (resting_device pass.old.me.0, []) }
    ensures line { (pass.new.table_id ≡ pass.old.table_id) × (pass.new.id ≡ pass.old.id) }
    ensures view { pass.new.me ≡ (Device (looked_by_device (device_of pass.old.me.0) result), []) }
{
    line.shared.load::<LooksAtAvailable>(pass, 0)
}

/// Loads the available element, and takes the cargo from the slot of its head. So many were fetched before.
pub fn take_entry<P: Tagged>(
    line: &Line<P>,
    pass: &mut Pass<P>,
    size: u16,
    fetched: u64,
) -> (u16, Cargo<P>)
    requires line { (pass.old.table_id ≡ line.now.shared.table_id) × (line.now.shared.table_id.words ≡ 2 + 4 * size) × (line.now.shared.table_id.slots ≡ size) × (line.now.shared.key.count ≡ size) }
    requires size { 0 < size }
    requires view { pass.old.me ≡ (newer_device pass.old.me.0, []) }
    requires count { fetched ≡ length (device_of pass.old.me.0).fetched }
    ensures line { (pass.new.table_id ≡ pass.old.table_id) × (pass.new.id ≡ pass.old.id) }
    ensures taken { HasTaken P.is_wanted size (device_of pass.old.me.0) result.0 result.1 pass.new.me }
{
    let element = available_word(size, fetched);
    let head = line.shared.load::<Fetches>(pass, element);
    let slot = line.shared.exchange(pass, head as usize, None);
    line.shared.load::<Settles>(pass, 0);
    let cargo = slot.unwrap();
    (head as u16, cargo)
}

/// Gives the cargo of a head back: its used element, then the index. So many were completed before.
pub fn give_back<P: Tagged>(
    line: &Line<P>,
    pass: &mut Pass<P>,
    size: u16,
    completed: u64,
    head: u16,
    len: u32,
    cargo: Cargo<P>,
)
    requires line { (pass.old.table_id ≡ line.now.shared.table_id) × (line.now.shared.table_id.words ≡ 2 + 4 * size) × (line.now.shared.key.count ≡ size) }
    requires size { 0 < size }
    requires view { pass.old.me ≡ (resting_device pass.old.me.0, []) }
    requires count { completed ≡ length (device_of pass.old.me.0).completed }
    requires last { completed < 2 ^ 63 }
    requires held { heads head (device_of pass.old.me.0).held ≡ 1 }
    requires cargo { IsDone P.is_wanted (answer_with (held_at head (device_of pass.old.me.0).held) len cargo) cargo }
    ensures line { (pass.new.table_id ≡ pass.old.table_id) × (pass.new.id ≡ pass.old.id) }
    ensures view { pass.new.me ≡ (Device (completed_after (device_of pass.old.me.0) (answer_with (held_at head (device_of pass.old.me.0).held) len cargo) (without head (device_of pass.old.me.0).held)), []) }
{
    let element = used_element_word(size, completed);
    line.shared
        .store::<Answers>(pass, element, used_word(head, len));
    let _none = line.shared.exchange(pass, head as usize, Some(cargo));
    line.shared
        .store::<Completes>(pass, 1, (completed + 1) % 65536);
}

/// A seat with the right to the entry of a head.
pub fn cut_right<P: Tagged>(line: &Line<P>, pass: &mut Pass<P>, head: u16) -> Pass<P>
    requires line { (pass.old.table_id ≡ line.now.shared.table_id) × (line.now.shared.table_id.words ≡ 2 + 4 * line.now.shared.key.count) }
    requires small { head < line.now.shared.key.count }
    requires view { pass.old.me ≡ (resting_device pass.old.me.0, []) }
    requires held { heads head (device_of pass.old.me.0).held ≡ 1 }
    requires unlent { heads head (device_of pass.old.me.0).lent ≡ 0 }
    ensures line { (pass.new.table_id ≡ pass.old.table_id) × (pass.new.id ≡ pass.old.id) × (result.table_id ≡ pass.old.table_id) }
    ensures view { pass.new.me ≡ (Device (lent_after (device_of pass.old.me.0) (held_at head (device_of pass.old.me.0).held)), []) }
    ensures right { result.me ≡ (Right (held_at head (device_of pass.old.me.0).held), []) }
{
    line.shared.load::<Names>(pass, 2 + 2 * head as usize);
    line.shared.split_seat::<CutsRight>(pass)
}

/// Takes in a seat with a right.
pub fn join_right<P: Tagged>(line: &Line<P>, pass: &mut Pass<P>, right: Pass<P>)
    requires line { (pass.old.table_id ≡ line.now.shared.table_id) × (right.table_id ≡ line.now.shared.table_id) × (line.now.shared.table_id.words ≡ 2 + 4 * line.now.shared.key.count) }
    requires view { pass.old.me ≡ (resting_device pass.old.me.0, []) }
    requires right { right.me ≡ (Right (right_of right.me.0), []) }
    ensures line { (pass.new.table_id ≡ pass.old.table_id) × (pass.new.id ≡ pass.old.id) }
    ensures view { pass.new.me ≡ (Device (set_stage (returned_after (device_of pass.old.me.0) (right_of right.me.0)) Resting), []) }
    ensures lent { Has (right_of right.me.0) (device_of pass.old.me.0).lent }
{
    line.shared.join_seat::<TakesRight>(pass, right);
    line.shared.load::<TellsLent>(pass, 0);
}

/// Loads a word of the ring.
pub(crate) fn read_word<P: Tagged>(line: &Line<P>, pass: &mut Pass<P>, word: usize) -> u64
    requires line { (pass.old.table_id ≡ line.now.shared.table_id) × (line.now.shared.table_id.slots ≡ line.now.shared.key.count) }
    requires word { word < line.now.shared.table_id.words }
    requires view { pass.old.me ≡ (resting_device pass.old.me.0, []) }
    ensures line { (pass.new.table_id ≡ pass.old.table_id) × (pass.new.id ≡ pass.old.id) × (pass.new.me ≡ pass.old.me) }
    ensures word { TellsWord line.now.shared.key.count word result (device_of pass.old.me.0).held }
{
    line.shared.load::<Reads>(pass, word)
}

/// A note of what was fetched.
pub fn note_fetched<P: Tagged>(line: &Line<P>, pass: &mut Pass<P>) -> Pass<P>
    requires line { (pass.old.table_id ≡ line.now.shared.table_id) × (line.now.shared.table_id.words ≡ 2 + 4 * line.now.shared.key.count) }
    requires view { pass.old.me ≡ (resting_device pass.old.me.0, []) }
    ensures line { (pass.new.table_id ≡ pass.old.table_id) × (pass.new.id ≡ pass.old.id) × (pass.new.me ≡ pass.old.me) }
    ensures note { (result.table_id ≡ pass.old.table_id) × (result.me ≡ (Note (device_of pass.old.me.0).fetched [], [])) }
{
    line.shared.split_seat::<NotesFetched>(pass)
}

/// Takes a note in: what it says that came back was completed.
pub fn take_reaped<P: Tagged>(line: &Line<P>, pass: &mut Pass<P>, note: Pass<P>)
    requires line { (pass.old.table_id ≡ line.now.shared.table_id) × (note.table_id ≡ line.now.shared.table_id) × (line.now.shared.table_id.words ≡ 2 + 4 * line.now.shared.key.count) }
    requires view { pass.old.me ≡ (resting_device pass.old.me.0, []) }
    requires note { note.me ≡ (Note (fetched_of note.me.0) (reaped_of note.me.0), []) }
    ensures line { (pass.new.table_id ≡ pass.old.table_id) × (pass.new.id ≡ pass.old.id) × (pass.new.me ≡ pass.old.me) }
    ensures reaped { IsPrefix (reaped_of note.me.0) (device_of pass.old.me.0).completed }
{
    line.shared.join_seat::<DeviceTakesNote>(pass, note);
    line.shared.load::<TellsReaped>(pass, 0);
}
