//! What the two ends of one ring have of each other.

ghost use Rattle.std.specs.Prelude.{◌≡◌, ℕ, ◌+◌};
ghost use mathlib.Core.List.{IsPrefix};
ghost use Rattle.vg_cargo.specs.declared.entries.Entry.{Entry};
ghost use Rattle.vg_cargo.specs.Entries.{entries, weigh};

use crate::device_end::DeviceEnd;
use crate::driver_end::DriverEnd;
use crate::naming::Naming;
use vg_history::Tagged;

/// Changes nothing, and tells that the two ends of a ring agree: what was fetched is a beginning of what was published,
/// and what came back is a beginning of what was completed. What was completed and what is held still are together
/// what was fetched, each once: a function of entries, added up, is the same over both.
pub fn ends_agree<P: Tagged, N: Naming>(driver: &mut DriverEnd<P, N>, device: &mut DeviceEnd<P, N>)
    ensures fetched { IsPrefix device.old.fetched driver.old.published }
    ensures reaped { IsPrefix driver.old.reaped device.old.completed }
    ensures completed { (f : Entry → ℕ) → weigh f device.old.fetched ≡ weigh f (entries device.old.completed) + weigh f device.old.held }
    ensures driver { driver.new ≡ driver.old }
    ensures device { device.new ≡ device.old }
{
    let fetched = device.note();
    driver.take_note(fetched);
    let reaped = driver.note();
    device.take_note(reaped);
}
