//! The features that a journal's lines leave accepted.

ghost use Rattle.std.specs.Prelude.{◌≡◌, ◌≤◌, if◌then◌else◌};
ghost use Rattle.vg_journal_read.specs.Features.{accepted_by_lines};

use vg_config::features::{CONTEXT_INIT, EDID, KEPT, RESOURCE_BLOB, RESOURCE_UUID, VIRGL};
use vg_journal_lines::LeftOut;

/// The features that are accepted where these are left out (VIRTIO 1.2, 5.7.3).
pub fn accepted_by_lines(out: LeftOut) -> u64
    ensures { result ≡ accepted_by_lines out }
{
    KEPT - left_out(out.edid, EDID)
        - left_out(out.uuid, RESOURCE_UUID)
        - left_out(out.blob, RESOURCE_BLOB)
        - left_out(out.context, VIRGL + CONTEXT_INIT)
}

/// These bits, where their feature is left out.
fn left_out(out: bool, bits: u64) -> u64
    ensures value { result ≡ (if out then bits else 0) }
    ensures at_most { result ≤ bits }
{
    if out { bits } else { 0 }
}
