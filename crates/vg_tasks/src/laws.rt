//! What holds of the tasks of calls: a function that does nothing, whose contract is a law.

ghost use Rattle.std.specs.Prelude.{◌≡◌, true, false};
ghost use Rattle.vg_calls.specs.declared.call.Call.{Call as Calls};
ghost use Rattle.vg_tasks.specs.Known.{Known};
ghost use Rattle.vg_tasks.specs.Keeps.{PlansToAskOnce, PlansToKeep};
ghost use Rattle.vg_tasks.specs.Tasks as plan;

/// A law, and no work: a call that gives up no lease, buffer or context gives up no hold.
pub fn a_call_keeps_its_holds()
    ensures { (known : Known) (call : Calls) → plan.gives_up call ≡ false → PlansToKeep (plan.tasks_of known call) }
{}

/// A law, and no work: a call that begins its command asks one request of the device, and changes nothing else.
pub fn a_begun_call_asks_once()
    ensures { (known : Known) (call : Calls) → plan.begins call ≡ true → PlansToAskOnce (plan.tasks_of known call) }
{}
