//! Clients and lanes on threads, which share one counter over desks.

ghost use Rattle.std.specs.Prelude.{◌≡◌, ◌<◌, ◌≤◌, ◌-◌, ◌^◌, ◌*◌, [], length, map, All, IfOk, OnOk, vec_len};
ghost use Rattle.vg_book_uses.specs.Adding.{AreNew, IsRootWith, IsWhole};
ghost use Rattle.vg_book_uses.specs.Desks.{HasServed, IsLaneKnown};
ghost use Rattle.vg_book_uses.specs.Sharing.{HasTakenLanes, HasTalked, HaveShared, MayTalk};

use crate::add::join_all;
use crate::counter::{Act, Counter};
use crate::desk::{Desk, ask, serve};
use std::alloc::{AllocError, Global};
use std::marker::{Send, Sync};
use std::sync::atomic::AtomicBool;
use std::sync::{Mutex, Wait};
use std::thread::Threads;
use vg_book::{Book, ClientToken, LaneToken, Naming, Opened, Root};
use vg_history::{History, Machine};
use vg_jobs::{Job, Nobody, all};

/// A client that adds 1 by an act and asks a lane to add 1, so many times. It halts the desk that it is at in this round.
#[derive(Drop)]
struct Asking<'a, B: Naming> {
    alloc: Global,
    book: &'a Book<Counter, B>,
    desks: &'a [Mutex<Desk<B>>],
    client: ClientToken<Counter, B>,
    rounds: u32,
    halt: u32,
}

impl<'a, B: Naming> Job<Result<ClientToken<Counter, B>, AllocError>> for Asking<'a, B> {
    ghost use Rattle.std.specs.Prelude.{◌≡◌, ◌<◌, ◌≤◌, ◌*◌, [], length, IfOk};
    ghost use Rattle.vg_book_uses.specs.Sharing.{HasTalked, MayTalk};

    ghost is_ready = { λ job. MayTalk ⟦<Counter as Machine>⟧ job.client × (0 < length job.desks.now) };

    ghost gives = { λ job result. IfOk result (λ c. HasTalked ⟦<Counter as Machine>⟧ job.client (2 * job.rounds) c) };

    fn run<R: Threads + Wait + Sync>(self, rt: &R) -> Result<ClientToken<Counter, B>, AllocError> {
        talk(
            rt,
            self.alloc,
            self.book,
            self.desks,
            self.client,
            self.rounds,
            self.halt,
        )
    }
}

/// Adds 1 by an act, and asks a lane to add 1, so many times, each time at the next desk.
fn talk<B: Naming, R: Wait>(
    rt: &R,
    alloc: Global,
    book: &Book<Counter, B>,
    desks: &[Mutex<Desk<B>>],
    client: ClientToken<Counter, B>,
    rounds: u32,
    halt: u32,
) -> Result<ClientToken<Counter, B>, AllocError>
    requires client { MayTalk ⟦<Counter as Machine>⟧ client }
    requires desks { 0 < length desks.now }
    ensures { IfOk result (λ c. HasTalked ⟦<Counter as Machine>⟧ client (2 * rounds) c) }
{
    let mut client = client;
    for round in 0..rounds {
        client.act(rt, alloc, book, Act::Add { n: 1 })?;
        let place = round as usize % desks.len();
        if round == halt {
            desks[place].lock(rt).halt();
        }
        ask(rt, book, &desks[place], &mut client, place as u32, 1)?;
    }
    Ok(client)
}

/// A lane's worker, at its desk until the flag is up.
#[derive(Drop)]
struct Serving<'a, B: Naming> {
    alloc: Global,
    book: &'a Book<Counter, B>,
    desks: &'a [Mutex<Desk<B>>],
    stop: &'a AtomicBool,
    lane: LaneToken<Counter, B>,
}

impl<'a, B: Naming> Job<LaneToken<Counter, B>> for Serving<'a, B> {
    ghost use Rattle.vg_book_uses.specs.Desks.{HasServed, IsLaneKnown};

    ghost is_ready = { λ job. IsLaneKnown ⟦<Counter as Machine>⟧ job.lane };

    ghost gives = { λ job lane. HasServed ⟦<Counter as Machine>⟧ job.lane lane };

    fn run<R: Threads + Wait + Sync>(self, rt: &R) -> LaneToken<Counter, B> {
        serve_at(rt, self.alloc, self.book, self.desks, self.stop, self.lane)
    }
}

/// Serves at the lane's desk, if it has one.
fn serve_at<B: Naming, R: Wait>(
    rt: &R,
    alloc: Global,
    book: &Book<Counter, B>,
    desks: &[Mutex<Desk<B>>],
    stop: &AtomicBool,
    lane: LaneToken<Counter, B>,
) -> LaneToken<Counter, B>
    requires { IsLaneKnown ⟦<Counter as Machine>⟧ lane }
    ensures { HasServed ⟦<Counter as Machine>⟧ lane result }
{
    let place = lane.lane() as usize;
    if place < desks.len() {
        serve(rt, alloc, book, &desks[place], stop, lane)
    } else {
        lane
    }
}

fn desks<B: Naming>(alloc: Global, count: u32) -> Result<Vec<Mutex<Desk<B>>>, AllocError>
    ensures { IfOk result (λ v. vec_len v ≡ count) }
{
    let mut desks = Vec::new(alloc);
    for _made in 0..count {
        desks.push(Mutex::new(Desk::new(alloc)))?;
    }
    Ok(desks)
}

/// So many new clients, which are to add and to ask so many times.
fn askers<'a, B: Naming>(
    alloc: Global,
    book: &'a Book<Counter, B>,
    root: &mut Root<Counter, B>,
    desks: &'a [Mutex<Desk<B>>],
    count: u32,
    rounds: u32,
    halt: u32,
) -> Result<Vec<Asking<'a, B>>, AllocError>
    requires first { (root.old.given ≡ 0) × (root.old.accounts ≡ []) × (root.old.lanes ≡ []) }
    requires count { count < 2 ^ 32 - 1 }
    requires desks { 0 < length desks.now }
    ensures root { OnOk result (IsRootWith count root.old root.new) }
    ensures clients { IfOk result (λ v. AreNew ⟦<Counter as Machine>⟧ root.old.start 1 count (map (λ job. job.client) v.items)) }
    ensures rounds { IfOk result (λ v. All (λ job. (job.rounds ≡ rounds) × (0 < length job.desks.now)) v.items) }
{
    let mut jobs = Vec::new(alloc);
    for _made in 0..count {
        let client = root.client(book, 1);
        jobs.push(Asking {
            alloc,
            book,
            desks,
            client,
            rounds,
            halt,
        })?;
    }
    Ok(jobs)
}

/// A worker for each lane.
fn servers<'a, B: Naming>(
    alloc: Global,
    book: &'a Book<Counter, B>,
    desks: &'a [Mutex<Desk<B>>],
    stop: &'a AtomicBool,
    lanes: Vec<LaneToken<Counter, B>>,
) -> Result<Vec<Serving<'a, B>>, AllocError>
    ensures { IfOk result (λ v. map (λ job. job.lane) v.items ≡ lanes.items) }
{
    let mut jobs = Vec::new(alloc);
    for lane in lanes {
        jobs.push(Serving {
            alloc,
            book,
            desks,
            stop,
            lane,
        })?;
    }
    Ok(jobs)
}

/// Takes in all lanes.
fn join_lanes<B: Naming>(
    book: &Book<Counter, B>,
    root: &mut Root<Counter, B>,
    lanes: Vec<LaneToken<Counter, B>>,
)
    ensures { HasTakenLanes root.old lanes.items root.new }
{
    for lane in lanes {
        root.join_lane(book, lane);
    }
}

/// So many clients, each on a thread of its own, add and ask so many times, and each lane has a worker.
pub fn run_all<B: Naming + Send + Sync, R: Threads + Wait + Sync>(
    rt: &R,
    alloc: Global,
    opened: Opened<Counter>,
    lanes: u32,
    clients: u32,
    rounds: u32,
    halt: u32,
) -> Result<(Counter, History<Counter>), AllocError>
    requires book { (opened.table ≡ B.table) × (opened.lanes ≡ lanes) }
    requires lanes { 0 < lanes }
    requires clients { clients < 2 ^ 32 - 1 }
    ensures whole { IfOk result (λ r. (s : _) → opened.start ≡ Some s → IsWhole ⟦<Counter as Machine>⟧ s r.0 r.1) }
    ensures shared { IfOk result (λ r. HaveShared ⟦<Counter as Machine>⟧ clients (2 * rounds) r.1) }
{
    let Ok((book, mut root, tokens)) = opened.named::<B>(alloc) else {
        return Err(AllocError);
    };
    let Ok(desks) = desks::<B>(alloc, lanes) else {
        return Err(AllocError);
    };
    let stop = AtomicBool::new(false);
    let Ok(servers) = servers(alloc, &book, desks.as_slice(), &stop, tokens) else {
        return Err(AllocError);
    };
    let Ok(askers) = askers(
        alloc,
        &book,
        &mut root,
        desks.as_slice(),
        clients,
        rounds,
        halt,
    ) else {
        return Err(AllocError);
    };
    let Ok((done, served)) = all(rt, &stop, askers, servers, &Nobody) else {
        return Err(AllocError);
    };
    join_all(&book, &mut root, done)?;
    join_lanes(&book, &mut root, served);
    Ok(book.close(root))
}
