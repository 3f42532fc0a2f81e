//! Carries values between two threads, over a ring and back or through a channel, for bench/ring to time.
#![tactic(auto)]

ghost use Rattle.std.specs.Prelude.{◌≡◌};
ghost use Rattle.vg_wire.specs.declared.request.Queue.TheVariants.{Control};

use crossbeam_channel::{Receiver, Sender, bounded};
use std::alloc::{AllocError, Global};
use std::marker::{Brand, Model, Send, Sync};
use std::process::ExitCode;
use std::sync::Wait;
use std::thread::{Threads, join};
use vg_ring::{Made, Naming, Ring};
use vg_ring_uses::{Mix, Order, Ticket, carry};
use vg_wire::Queue;

/// What a run is asked for: so many values over a ring, or through a channel.
#[derive(Clone, Copy)]
enum Way {
    Ring,
    Channel,
}

fn main(rt: HostRuntime) -> ExitCode {
    match words(&rt) {
        Ok(Some((way, count))) => match carried(&rt, rt.alloc(), way, count) {
            Ok(true) => ExitCode::SUCCESS,
            _ => ExitCode::FAILURE,
        },
        Ok(None) => ExitCode::from(2),
        Err(_) => ExitCode::FAILURE,
    }
}

/// The way and the count that the two words after the program's name say.
fn words(rt: &HostRuntime) -> Result<Option<(Way, u32)>, AllocError> {
    let Ok(args) = std::env::args(rt) else {
        return Err(AllocError);
    };
    let words: Vec<String> = args.skip(1).collect(rt.alloc())?;
    let [way, count] = words.as_slice() else {
        return Ok(None);
    };
    let way = match way.as_str() {
        "ring" => Way::Ring,
        "channel" => Way::Channel,
        _ => return Ok(None),
    };
    Ok(count.parse().ok().map(|count| (way, count)))
}

/// Whether so many values went over.
fn carried<R: Threads + Wait + Sync>(
    rt: &R,
    alloc: Global,
    way: Way,
    count: u32,
) -> Result<bool, AllocError> {
    match way {
        Way::Ring => {
            let ring = Ring::make::<Ticket>(alloc, Queue::Control, 64)?;
            over_ring::<Brand, R>(rt, alloc, ring, count)
        }
        Way::Channel => through_channel(rt, alloc, count),
    }
}

fn over_ring<N: Naming + Send, R: Threads + Wait + Sync>(
    rt: &R,
    alloc: Global,
    made: Made<Ticket>,
    count: u32,
) -> Result<bool, AllocError>
    requires { (made.table ≡ N.ring) × (made.queue ≡ Control) }
{
    let order = Order {
        queue: Queue::Control,
        lane: 1,
        count,
        mix: Mix::Plain,
    };
    let (_, _, right) = carry::<N, R>(rt, alloc, made, order)?;
    Ok(right == u64::from(count))
}

fn through_channel<R: Threads + Wait + Sync>(
    rt: &R,
    alloc: Global,
    count: u32,
) -> Result<bool, AllocError> {
    let (sender, receiver) = bounded::<u64, Global>(alloc, 64)?;
    let (sent, received) = join(
        rt,
        move || send_all(rt, sender, count),
        move || receive_all(rt, receiver),
    );
    Ok(sent && received == u64::from(count))
}

fn send_all<R: Wait>(rt: &R, sender: Sender<u64, Global>, count: u32) -> bool {
    for value in 0..count {
        if sender.send(rt, u64::from(value)).is_err() {
            return false;
        }
    }
    true
}

/// How many values came in their order.
fn receive_all<R: Wait>(rt: &R, receiver: Receiver<u64, Global>) -> u64 {
    let mut next = 0u64;
    for _turn in 0..u64::MAX {
        match receiver.recv(rt) {
            Ok(value) if value == next => next = next.wrapping_add(1),
            _ => return next,
        }
    }
    next
}
