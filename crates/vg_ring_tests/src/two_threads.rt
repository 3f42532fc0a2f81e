//! Two threads carry cargoes across rings and back.

ghost use Rattle.std.specs.Prelude.{◌≡◌};
ghost use Rattle.vg_cargo.specs.Cargo.{IsLane};

use std::alloc::Global;
use std::marker::{Brand, Send, Sync};
use std::process::Abort;
use std::sync::Wait;
use std::test::*;
use std::thread::Threads;
use vg_ring::{Made, Naming, Ring};
use vg_ring_uses::{Mix, Order, Ticket, carry, index_seen};
use vg_wire::Queue;

fn carries<N: Naming + Send, R: Threads + Wait + Abort + Sync>(
    rt: &R,
    alloc: Global,
    made: Made<Ticket>,
    order: Order,
    index: u64,
) -> Result<(), Fail>
    requires ring { (made.table ≡ N.ring) × (made.queue ≡ order.queue) }
    requires lane { IsLane order.queue order.lane }
{
    let all = u64::from(order.count);
    let (driver, mut device, right) = carry::<N, R>(rt, alloc, made, order)?;
    assert_eq!(rt;
        (driver.published(), driver.reaped(), right),
        (all, all, all)
    );
    assert_eq!(rt; (device.fetched(), device.completed()), (all, all));
    assert_eq!(rt; index_seen(&mut device), Some(index));
    Ok(())
}

#[test]
fn seventy_thousand_cargoes_go_through_a_ring_of_16(rt: HostRuntime) -> Result<(), Fail> {
    let ring = Ring::make::<Ticket>(rt.alloc(), Queue::Control, 16)?;
    let order = Order {
        queue: Queue::Control,
        lane: 3,
        count: 70000,
        mix: Mix::Plain,
    };
    carries::<Brand, _>(&rt, rt.alloc(), ring, order, 4464)
}

#[test]
fn seventy_thousand_cargoes_go_through_a_ring_of_2(rt: HostRuntime) -> Result<(), Fail> {
    let ring = Ring::make::<Ticket>(rt.alloc(), Queue::Control, 2)?;
    let order = Order {
        queue: Queue::Control,
        lane: 64,
        count: 70000,
        mix: Mix::Plain,
    };
    carries::<Brand, _>(&rt, rt.alloc(), ring, order, 4464)
}

#[test]
fn seventy_thousand_cargoes_of_one_to_nine_descriptors_go_through(
    rt: HostRuntime,
) -> Result<(), Fail> {
    let ring = Ring::make::<Ticket>(rt.alloc(), Queue::Control, 16)?;
    let order = Order {
        queue: Queue::Control,
        lane: 0,
        count: 70000,
        mix: Mix::OneToNine,
    };
    carries::<Brand, _>(&rt, rt.alloc(), ring, order, 4464)
}

#[test]
fn seventy_thousand_and_one_cargoes_go_through_a_cursor_ring(rt: HostRuntime) -> Result<(), Fail> {
    let ring = Ring::make::<Ticket>(rt.alloc(), Queue::Cursor, 16)?;
    let order = Order {
        queue: Queue::Cursor,
        lane: 65,
        count: 70001,
        mix: Mix::Plain,
    };
    carries::<Brand, _>(&rt, rt.alloc(), ring, order, 4465)
}
