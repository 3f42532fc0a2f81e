//! Laws of histories, each the contract of a function that does no work.

ghost use Rattle.std.specs.Prelude.{◌≡◌, ◌⊎◌, ◌+◌, ℕ, true, List, [], ◌∷◌, ◌++◌};
ghost use Rattle.vg_history.specs.Lists.{Has};
ghost use Rattle.vg_history.specs.declared.entry.Entry.TheVariants as entries;
ghost use Rattle.vg_client_holds.specs.declared.act.Act.TheVariants as acts;
ghost use Rattle.vg_client_holds.specs.declared.act.ActReply as replies;
ghost use Rattle.vg_client_holds.specs.declared.setup.Setup.{Setup};
ghost use Rattle.vg_machine.specs.Entries.{Entry};
ghost use Rattle.vg_machine.specs.Order.{HasPlug, IsPlug, Sound, client_of};

/// A law, and no work: no act is among none that plugs a display; what is among some entries is among more; and one entry more adds
/// itself alone.
pub fn plugs_stay()
    ensures none { (n : ℕ) → HasPlug n [] → ⊥ }
    ensures stays { (n : ℕ) (es more : List Entry) → HasPlug n es → HasPlug n (es ++ more) }
    ensures here { (n : ℕ) (es : List Entry) (entry : Entry) → IsPlug n entry → HasPlug n (es ++ entry ∷ []) }
    ensures one { (n : ℕ) (es : List Entry) (entry : Entry) → HasPlug n (es ++ entry ∷ []) → HasPlug n es ⊎ IsPlug n entry }
{}

/// A law, and no work: in a sound history each wait for the host stands behind an act of the number that it waited for, with which a
/// display was plugged, resized or unplugged, and that was the host's.
pub fn syncs_stand_behind_the_host()
    ensures { (setup : Setup) (H before after : List Entry) (client call n : ℕ) (reply : replies.ActReply) → Sound setup H
        → H ≡ before ++ entries.Act client call (acts.Sync n) reply ∷ after
        → (plug : Entry) × Has before plug × IsPlug n plug × (client_of plug ≡ setup.clients + 1) × (setup.host ≡ true) }
{}
