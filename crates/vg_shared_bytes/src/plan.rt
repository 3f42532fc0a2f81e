//! Where the bytes of a strip are to stand.

ghost use Rattle.std.specs.Prelude.{◌≡◌, length, map, All, IfOk, OnOk};
ghost use Rattle.std.specs.Arc.{arc_slice_items};
ghost use Rattle.vg_shared_bytes.specs.PlansWithin.{Fits, Grows, IsPlanned, bytes_by};

use crate::strip::Strip;
use std::alloc::{AllocError, Global};
use std::sync::ArcSlice;

/// Where the bytes of a strip are to stand.
#[derive(Drop)]
pub(crate) enum Plan {
    /// Where those of another strip do.
    Shared(Strip),
    /// In the block of what is new, so many from this place on.
    New { from: usize, len: usize },
}

/// Where these bytes are to stand: where another strip or the one in front of them has them, or else behind what is new.
pub(crate) fn planned(
    bytes: &[u8],
    other: Option<&Strip>,
    before: Option<&Plan>,
    new: &mut Vec<u8>,
) -> Result<Plan, AllocError>
    ensures planned { IfOk result (λ plan. IsPlanned new.new.items bytes.now plan) }
    ensures grows { OnOk result (Grows new.old.items new.new.items) }
{
    if let Some(strip) = other {
        if strip.as_slice() == bytes {
            return Ok(Plan::Shared(strip.share()?));
        }
    }
    if let Some(plan) = before {
        match plan {
            Plan::Shared(strip) => {
                if strip.as_slice() == bytes {
                    return Ok(Plan::Shared(strip.share()?));
                }
            }
            Plan::New { from, .. } => {
                if new.get(*from..) == Some(bytes) {
                    return Ok(Plan::New {
                        from: *from,
                        len: bytes.len(),
                    });
                }
            }
        }
    }
    let from = new.len();
    new.extend_from_slice(bytes)?;
    Ok(Plan::New {
        from,
        len: bytes.len(),
    })
}

/// The strips of these plans, with the block of what is new.
pub(crate) fn carried_out(
    alloc: Global,
    plans: Vec<Plan>,
    block: &ArcSlice<u8>,
) -> Result<Vec<Strip>, AllocError>
    requires { All (Fits (arc_slice_items block.now)) plans.items }
    ensures { IfOk result (λ strips. strips.items ≡ map (bytes_by (arc_slice_items block.now)) plans.items) }
{
    let mut strips = Vec::with_capacity(alloc, plans.len())?;
    for plan in plans {
        let strip = strip_of(plan, block)?;
        strips.push(strip)?;
    }
    Ok(strips)
}

/// The strip of a plan.
fn strip_of(plan: Plan, block: &ArcSlice<u8>) -> Result<Strip, AllocError>
    requires { Fits (arc_slice_items block.now) plan }
    ensures { IfOk result (λ strip. strip ≡ bytes_by (arc_slice_items block.now) plan) }
{
    match plan {
        Plan::Shared(strip) => Ok(strip),
        Plan::New { from, len } => Strip::of(block, from, len),
    }
}
