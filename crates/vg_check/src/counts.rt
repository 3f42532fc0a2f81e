//! Numbers by lanes.

ghost use Rattle.std.specs.Prelude.{◌≡◌, get_or, replicate, set, IfOk};

use std::alloc::{AllocError, Global};

/// How many lanes there are: 65 of the control queue, and the cursor queue.
const LANES: usize = 66;

/// A 0 for each lane.
pub(crate) fn zeros(alloc: Global) -> Result<Vec<u64>, AllocError>
    ensures { IfOk result (λ counts. counts.items ≡ replicate 66 0) }
{
    repeat_zero(alloc, LANES)
}

fn repeat_zero(alloc: Global, count: usize) -> Result<Vec<u64>, AllocError>
    ensures { IfOk result (λ counts. counts.items ≡ replicate count 0) }
{
    vec![in alloc; 0u64; count]
}

/// The number of a lane, 0 where there is no such lane.
pub(crate) fn number_at(numbers: &[u64], lane: u32) -> u64
    ensures { result ≡ get_or numbers.now lane 0 }
{
    match numbers.get(lane as usize) {
        Some(number) => *number,
        None => 0,
    }
}

/// Sets the number of a lane, if there is such a lane.
pub(crate) fn put_number(numbers: &mut Vec<u64>, lane: u32, number: u64)
    ensures { numbers.new.items ≡ set numbers.old.items lane number }
{
    let place = lane as usize;
    if place < numbers.len() {
        numbers[place] = number;
    }
}
