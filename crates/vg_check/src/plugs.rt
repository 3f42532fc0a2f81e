//! The numbers of the acts with which displays were plugged or unplugged, and who waits for one.

ghost use Rattle.std.specs.Prelude.{◌≡◌, OnOk};
ghost use Rattle.vg_check.specs.TestsWithin.{KeepsPlug, is_met};

use std::alloc::AllocError;
use std::collections::BTreeSet;
use vg_machine::Act;

/// Whether the act waits for none, or for one of these numbers.
pub(crate) fn is_met(plugs: &BTreeSet<u64>, act: &Act) -> bool
    ensures { result ≡ is_met plugs.now act.now }
{
    match act {
        Act::Sync { call } => plugs.contains(call),
        _ => true,
    }
}

/// Keeps the act's number, where it plugs or unplugs a display.
pub(crate) fn keep_plug(plugs: &mut BTreeSet<u64>, call: u64, act: &Act) -> Result<(), AllocError>
    ensures { OnOk result (KeepsPlug plugs.old call act.now plugs.new) }
{
    match act {
        Act::Mode { .. } | Act::Unplug { .. } => {
            plugs.insert(call)?;
            Ok(())
        }
        _ => Ok(()),
    }
}
