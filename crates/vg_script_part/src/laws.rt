//! What holds of the definitions here: a function that does nothing, whose contract is a law.

ghost use Rattle.std.specs.Prelude.{◌≡◌, ◌+◌, ℕ, List};
ghost use Rattle.vg_machine.specs.Entries.{Entry as Entries};
ghost use Rattle.vg_script.specs.declared.types.Line.{Line as Lines};
ghost use Rattle.vg_tasks.specs.Known.{Known};
ghost use Rattle.vg_labels.specs.Labels.{Values};
ghost use Rattle.vg_script_part.specs.Follows.{GivesAll};
ghost use Rattle.vg_script_part.specs.Numbers.{contexts_in, names_in};

use vg_client::{a_call_numbers_its_context, a_call_numbers_its_name};

/// A law, and no work: a client has numbered as many names as its lines so far define, whatever these were answered. So a name
/// has for its client the number that a script has for it.
pub fn lines_number_names()
    ensures { (H : List Entries) (values : Values) (client : ℕ) (begun : List ℕ) (known known' : Known) (lines : List Lines) (mine : List Entries) → GivesAll H values client begun known lines mine known'
        → known'.names.made ≡ known.names.made + names_in lines }
{
    a_call_numbers_its_name();
}

/// A law, and no work: a client has numbered as many contexts as its lines so far make, whatever these were answered. So a context has
/// for its client the number that a script has for it.
pub fn lines_number_contexts()
    ensures { (H : List Entries) (values : Values) (client : ℕ) (begun : List ℕ) (known known' : Known) (lines : List Lines) (mine : List Entries) → GivesAll H values client begun known lines mine known'
        → known'.contexts.made ≡ known.contexts.made + contexts_in lines }
{
    a_call_numbers_its_context();
}
