//! What holds of the definitions here: a function that does nothing, whose contract is a law.

ghost use Rattle.std.specs.Prelude.{◌≡◌, ◌+◌, ℕ, List, if◌then◌else◌};
ghost use Rattle.vg_calls.specs.declared.call.Call.{Call as Calls};
ghost use Rattle.vg_machine.specs.Entries.{Entry as Entries};
ghost use Rattle.vg_tasks.specs.Known.{Known};
ghost use Rattle.vg_client.specs.Calls.{Gives};
ghost use Rattle.vg_client.specs.Numbers.{defines, makes_context};

/// A law, and no work: a call that defines a name takes the next number for it, whatever it is answered, and no other call takes
/// one.
pub fn a_call_numbers_its_name()
    ensures { (client : ℕ) (known known' : Known) (call : Calls) (mine : List Entries) → Gives client known call mine known'
        → known'.names.made ≡ known.names.made + (if defines call then 1 else 0) }
{}

/// A law, and no work: a call that makes a context takes the next number for it, whatever it is answered, and no other call takes
/// one.
pub fn a_call_numbers_its_context()
    ensures { (client : ℕ) (known known' : Known) (call : Calls) (mine : List Entries) → Gives client known call mine known'
        → known'.contexts.made ≡ known.contexts.made + (if makes_context call then 1 else 0) }
{}
