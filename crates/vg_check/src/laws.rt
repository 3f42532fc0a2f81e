//! Laws of right and wrong entries, each the contract of a function that does no work.

ghost use Rattle.std.specs.Prelude.{◌≡◌, ◌↔◌, ◌+◌, ℕ, List, [], ◌∷◌, ◌++◌, length};
ghost use mathlib.Core.List.{IsPrefix};
ghost use Rattle.vg_client_holds.specs.declared.setup.Setup.{Setup};
ghost use Rattle.vg_scanout.specs.declared.scanout.Frame.{Frame};
ghost use Rattle.vg_machine.specs.Entries.{Entry};
ghost use Rattle.vg_machine.specs.Order.{Sound};
ghost use Rattle.vg_check.specs.Right.{AreRight, IsRight, IsWrongAt, frames_after};

/// A law, and no work: all entries are right and the frames are the display's exactly where the history is sound and the frames
/// are the display's.
pub fn right_is_sound()
    ensures { (setup : Setup) (frames : List Frame) (H : List Entry)
        → (AreRight setup frames [] H × (frames_after setup H ≡ frames)) ↔ (Sound setup H × (frames_after setup H ≡ frames)) }
{}

/// A law, and no work: at most one entry is the first that isn't right, and none is where all are right.
pub fn one_entry_is_wrong_first()
    ensures once { (setup : Setup) (frames : List Frame) (H : List Entry) (n m : ℕ) → IsWrongAt setup frames H n → IsWrongAt setup frames H m → n ≡ m }
    ensures none { (setup : Setup) (frames : List Frame) (H : List Entry) (n : ℕ) → AreRight setup frames [] H → IsWrongAt setup frames H n → ⊥ }
{}

/// A law, and no work: behind entries that are right one more is, or is the first that isn't.
pub fn right_entries_go_on()
    ensures right { (setup : Setup) (frames : List Frame) (H : List Entry) (entry : Entry) → AreRight setup frames [] H → IsRight setup frames H entry
        → AreRight setup frames [] (H ++ entry ∷ []) }
    ensures wrong { (setup : Setup) (frames : List Frame) (H : List Entry) (entry : Entry) (rest : List Entry) → AreRight setup frames [] H → (IsRight setup frames H entry → ⊥)
        → IsWrongAt setup frames (H ++ (entry ∷ rest)) (length H + 1) }
{}

/// A law, and no work: an entry makes no frame but behind those of before.
pub fn frames_stay()
    ensures { (setup : Setup) (H : List Entry) (entry : Entry) → IsPrefix (frames_after setup H) (frames_after setup (H ++ entry ∷ [])) }
{}
