//! Completions in another order than fetches.

ghost use Rattle.std.specs.Prelude.{◌≡◌, true, false};
ghost use Rattle.vg_ring_uses.specs.Carried.{HasSeenAll, Turns};

use crate::ticket::{Ticket, unanswered};
use std::marker::Model;
use vg_ring::{DeviceEnd, Fetched, Naming};

/// Fetches two cargoes, and completes the second one first. False where there aren't two.
pub fn answer_turned<N: Naming>(device: &mut DeviceEnd<Ticket, N>) -> bool
    ensures turned { result ≡ true → Turns device.old device.new }
    ensures missing { result ≡ false → (device.new.completed ≡ device.old.completed) × HasSeenAll device.new }
{
    let Some(first) = device.fetch() else {
        return false;
    };
    let Some(second) = device.fetch() else {
        return false;
    };
    let Fetched { head, cargo } = second;
    device.complete(head, 0, unanswered(cargo));
    let Fetched { head, cargo } = first;
    device.complete(head, 0, unanswered(cargo));
    true
}
