//! Laws of holds, shares and ids, each the contract of a function that does no work.

ghost use Rattle.std.specs.Prelude.{ℕ, List, take};
ghost use Rattle.vg_client_holds.specs.declared.setup.Setup.{Setup};
ghost use Rattle.vg_client_holds.specs.Setup.{IsSetup};
ghost use Rattle.vg_machine.specs.Entries.{Entry};
ghost use Rattle.vg_machine.specs.Order.{Sound, holds_of};
ghost use Rattle.vg_machine.specs.Replay.{Agrees, replay};
ghost use Rattle.vg_linked.specs.Linked.{AreAlone, AreOf, Linked};
ghost use Rattle.vg_linked.specs.Consistent.{AreOfBuffers, IsReplayed};

/// A law, and no work: at each moment of a history whose replies are the display's, what a client holds by its acts and what the
/// shares say of it agree. The holds have the client's number, and the setup's displays and pages. Each buffer is held or taken
/// down, and never both.
pub fn holds_are_linked()
    ensures linked { (setup : Setup) (H : List Entry) (i client : ℕ) → Agrees setup H → Linked client (holds_of setup client (take i H)) (replay setup (take i H)).share }
    ensures own { (setup : Setup) (H : List Entry) (client : ℕ) → AreOf setup client (holds_of setup client H) }
    ensures alone { (setup : Setup) (H : List Entry) (i : ℕ) → AreAlone (replay setup (take i H)).share }
{}

/// A law, and no work: after every history, whatever its clients have asked, memory and the shares fit, ids are unique, and what
/// belongs together is there.
pub fn replayed_states_are_consistent()
    ensures { (setup : Setup) (H : List Entry) → IsSetup setup → IsReplayed setup (replay setup H) }
{}

/// A law, and no work: at each moment of a sound history each resource has the number of a live buffer, and what is given to it lies
/// in the pages of that buffer.
pub fn resources_are_of_buffers()
    ensures { (setup : Setup) (H : List Entry) (i : ℕ) → Sound setup H → AreOfBuffers (replay setup (take i H)) }
{}
