//! What holds of each workload.

ghost use Rattle.std.specs.Prelude.{◌≤◌, ◌<◌, ◌^◌, ℕ, length};
ghost use Rattle.vg_script.specs.declared.types.Script.{Script};
ghost use Rattle.vg_script.specs.Grammar.{Parses};
ghost use Rattle.vg_gen.specs.Generated.{generated};

/// A law, and no work: the text of each workload is a script, and a short one.
pub fn workloads_are_scripts()
    ensures script { (number clients : ℕ) → 1 ≤ clients → clients ≤ 16 → (script : Script) × Parses (generated number clients) script }
    ensures short { (number clients : ℕ) → 1 ≤ clients → clients ≤ 16 → length (generated number clients) < 2 ^ 24 }
{}
