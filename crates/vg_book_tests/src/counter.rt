//! Threads share one counter, and what the book gives at the end is replayed by a plain loop.

ghost use Rattle.std.specs.Prelude.{◌≡◌, ◌<◌, ◌-◌, ◌^◌};

use std::alloc::Global;
use std::marker::{Brand, Send, Sync};
use std::process::Abort;
use std::sync::Wait;
use std::test::*;
use std::thread::Threads;
use vg_book::{Naming, Opened};
use vg_book_uses::{Act, Counter, all_add, both_meet, run_all};
use vg_history::Entry;

/// What a plain loop over the history finds: how many entries are answered as a counter on one thread answers them, how many
/// are commands, and how many of these have their lane's next ordinal.
#[derive(Debug, Drop, PartialEq)]
struct Found {
    agreeing: u32,
    commands: u32,
    in_order: u32,
}

fn replayed(entries: &[Entry<Counter>]) -> Found {
    let mut found = Found {
        agreeing: 0,
        commands: 0,
        in_order: 0,
    };
    let mut total = 0u64;
    let mut lanes = [0u64; 3];
    for entry in entries {
        let (n, reply) = said(entry);
        total = total.wrapping_add(n);
        found.agreeing = found.agreeing.wrapping_add(u32::from(reply == total));
        if let Entry::Command { request, .. } = entry {
            let lane = request.lane as usize % 3;
            lanes[lane] = lanes[lane].wrapping_add(1);
            found.commands = found.commands.wrapping_add(1);
            found.in_order = found
                .in_order
                .wrapping_add(u32::from(lanes[lane] == request.ordinal));
        }
    }
    found
}

/// How much an entry adds, and what it was answered.
fn said(entry: &Entry<Counter>) -> (u64, u64) {
    match entry {
        Entry::Act { act, reply, .. } => match act {
            Act::Add { n } => (*n, *reply),
            Act::Stop => (0, *reply),
        },
        Entry::Command { request, reply, .. } => (request.n, *reply),
    }
}

#[test]
fn two_threads_make_a_thousand_acts_each(rt: HostRuntime) -> Result<(), Fail> {
    let opened = Opened::new(rt.alloc(), Counter::new(), 0)?;
    adds::<Brand, _>(&rt, rt.alloc(), opened)
}

fn adds<B: Naming + Send + Sync, R: Threads + Wait + Abort + Sync>(
    rt: &R,
    alloc: Global,
    opened: Opened<Counter>,
) -> Result<(), Fail>
    requires { (opened.table ≡ B.table) × (opened.lanes ≡ 0) }
{
    let (counter, history) = all_add::<B, R>(rt, alloc, opened, 2, 1000)
        .ok()
        .ok_or("memory")?;
    let want = Found {
        agreeing: 2000,
        commands: 0,
        in_order: 0,
    };
    assert_eq!(rt;
        (counter.entries, counter.total, history.len()),
        (2000, 2000, 2000)
    );
    let (_, entries) = history.parts();
    assert_eq!(rt; replayed(entries), want);
    Ok(())
}

#[test]
fn four_clients_and_three_lanes_make_five_thousand_entries(rt: HostRuntime) -> Result<(), Fail> {
    let opened = Opened::new(rt.alloc(), Counter::new(), 3)?;
    let want = Found {
        agreeing: 5000,
        commands: 2500,
        in_order: 2500,
    };
    shares::<Brand, _>(&rt, rt.alloc(), opened, 3, 4, 625, 625, want)
}

#[test]
fn passes_come_back_unrun_from_a_halted_desk(rt: HostRuntime) -> Result<(), Fail> {
    let opened = Opened::new(rt.alloc(), Counter::new(), 1)?;
    let want = Found {
        agreeing: 15,
        commands: 5,
        in_order: 5,
    };
    shares::<Brand, _>(&rt, rt.alloc(), opened, 1, 1, 10, 5, want)
}

fn shares<B: Naming + Send + Sync, R: Threads + Wait + Abort + Sync>(
    rt: &R,
    alloc: Global,
    opened: Opened<Counter>,
    lanes: u32,
    clients: u32,
    rounds: u32,
    halt: u32,
    want: Found,
) -> Result<(), Fail>
    requires book { (opened.table ≡ B.table) × (opened.lanes ≡ lanes) }
    requires lanes { 0 < lanes }
    requires clients { clients < 2 ^ 32 - 1 }
{
    let (counter, history) = run_all::<B, R>(rt, alloc, opened, lanes, clients, rounds, halt)
        .ok()
        .ok_or("memory")?;
    assert_eq!(rt;
        (counter.entries, counter.total),
        (u64::from(want.agreeing), u64::from(want.agreeing))
    );
    assert_eq!(rt; history.len(), want.agreeing as usize);
    let (_, entries) = history.parts();
    assert_eq!(rt; replayed(entries), want);
    Ok(())
}

#[test]
fn two_clients_meet_notes_of_each_other(rt: HostRuntime) -> Result<(), Fail> {
    let opened = Opened::new(rt.alloc(), Counter::new(), 0)?;
    meets::<Brand, _>(&rt, rt.alloc(), opened)
}

/// The number of the client's own call.
fn call_of(entry: &Entry<Counter>) -> u64 {
    match entry {
        Entry::Act { call, .. } | Entry::Command { call, .. } => *call,
    }
}

fn meets<B: Naming + Send + Sync, R: Threads + Wait + Abort + Sync>(
    rt: &R,
    alloc: Global,
    opened: Opened<Counter>,
) -> Result<(), Fail>
    requires { (opened.table ≡ B.table) × (opened.lanes ≡ 0) }
{
    let (_, history) = both_meet::<B, R>(rt, alloc, opened).ok().ok_or("memory")?;
    let (_, entries) = history.parts();
    let mut calls = Vec::new(alloc);
    for entry in entries {
        calls.push(call_of(entry))?;
    }
    assert_eq!(rt; calls.as_slice(), [1, 1, 2, 2].as_slice());
    Ok(())
}
