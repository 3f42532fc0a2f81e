//! Cargoes across a ring and back, between two threads.

ghost use Rattle.std.specs.Prelude.{◌≡◌, ◌%◌, ◌+◌, IfOk, MatchOption, length};
ghost use Rattle.vg_cargo.specs.Cargo.{IsLane};
ghost use Rattle.vg_ring_uses.specs.Carried.{HaveCarried};

use crate::answering::Answering;
use crate::asking::{Asking, Order};
use crate::ticket::Ticket;
use std::alloc::{AllocError, Global};
use std::marker::{Model, Send, Sync};
use std::sync::Wait;
use std::sync::atomic::AtomicBool;
use std::thread::Threads;
use vg_jobs::both;
use vg_ring::{DeviceEnd, DriverEnd, Made, Naming, ends_agree};

/// Carries the cargoes of the order across a ring and back, between two threads. It gives both ends, and how many cargoes
/// came back right, as the driver's thread saw them.
pub fn carry<N: Naming + Send, R: Threads + Wait + Sync>(
    rt: &R,
    alloc: Global,
    made: Made<Ticket>,
    order: Order,
) -> Result<(DriverEnd<Ticket, N>, DeviceEnd<Ticket, N>, u64), AllocError>
    requires ring { (made.table ≡ N.ring) × (made.queue ≡ order.queue) }
    requires lane { IsLane order.queue order.lane }
    ensures { IfOk result (λ r. HaveCarried order.queue order.lane order.count r.0 r.1) }
{
    let (driver, device) = made.named::<N>();
    let stop = AtomicBool::new(false);
    let asking = Asking {
        alloc,
        driver,
        order,
    };
    let answering = Answering {
        alloc,
        device,
        stop: &stop,
    };
    let (asked, answered) = both(rt, &stop, asking, answering)?;
    let (mut driver, right) = asked?;
    let mut device = answered?;
    ends_agree(&mut driver, &mut device);
    Ok((driver, device, right))
}

/// The available index, as the device's end loads it where nothing more was published. Else it fetches one.
pub fn index_seen<N: Naming>(device: &mut DeviceEnd<Ticket, N>) -> Option<u64>
    ensures { MatchOption result (length device.new.fetched ≡ length device.old.fetched + 1) (λ index. (device.new.seen ≡ index) × (index ≡ length device.old.fetched % 65536)) }
{
    let fetched = device.fetched();
    match device.fetch() {
        Some(_) => None,
        None => Some(fetched % 65536),
    }
}
