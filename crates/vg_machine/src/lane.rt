//! The lanes: commands of one lane run in the order in which they were submitted.

ghost use Rattle.std.specs.Prelude.{◌≡◌};
ghost use Rattle.vg_machine.specs.Lane as lane;

use vg_wire::{Queue, read_header};

/// The lane of a request that came on this queue: 65 for the cursor queue; for the control queue 1 and
/// the ring index, where flags has INFO_RING_IDX and the index is at most 63, and else 0.
pub fn lane_of(queue: Queue, bytes: &[u8]) -> u32
    ensures { result ≡ lane.lane_of queue bytes.now }
{
    match queue {
        Queue::Cursor => 65,
        Queue::Control => match read_header(bytes) {
            Some(header) if header.flags & 2 == 2 && header.ring_idx <= 63 => {
                1 + u32::from(header.ring_idx)
            }
            _ => 0,
        },
    }
}
