//! Two lanes on threads, each with one request: the job of the first is lent, and the second begins once it was.

ghost use Rattle.std.specs.Prelude.{◌≡◌, ◌+◌, ◌-◌, ◌^◌, ◌<◌, IfSome};

use crate::waiter::{Flags, Request, Waiter};
use std::alloc::{AllocError, Global};
use std::marker::{Send, Sync};
use std::sync::atomic::AtomicBool;
use std::sync::{Arc, Wait};
use std::thread::Threads;
use vg_book::{Book, LaneToken, Naming, Opened, Pass, Root};
use vg_history::Machine;
use vg_jobs::{Job, both};

/// A lane with its next request, on a thread.
#[derive(Drop)]
struct Running<'a, B: Naming> {
    alloc: Global,
    book: &'a Book<Waiter, B>,
    lane: LaneToken<Waiter, B>,
    pass: Pass<Waiter, B>,
    request: Request,
    /// Where it looks that a job was lent, before it runs the request.
    after: Option<Arc<Flags>>,
}

impl<'a, B: Naming> Job<Option<u64>> for Running<'a, B> {
    ghost use Rattle.std.specs.Prelude.{◌≡◌, ◌+◌};

    ghost is_ready = { λ job. (job.request ≡ job.pass.order.request) × (⟦<Waiter as Machine>⟧.tagged job.request ≡ (job.lane.lane, job.lane.count + 1)) };

    ghost gives = { λ job reply. Unit {0} };

    // It gives the reply, unless memory lacks.
    fn run<R: Threads + Wait + Sync>(self, rt: &R) -> Option<u64> {
        if let Some(flags) = &self.after {
            flags.await_loan();
        }
        reply_of(
            rt,
            self.alloc,
            self.book,
            self.lane,
            self.pass,
            self.request,
        )
    }
}

/// Runs the lane's next request, and gives the reply, unless memory lacks.
fn reply_of<B: Naming, R: Wait>(
    rt: &R,
    alloc: Global,
    book: &Book<Waiter, B>,
    lane: LaneToken<Waiter, B>,
    pass: Pass<Waiter, B>,
    request: Request,
) -> Option<u64>
    requires request { request ≡ pass.order.request }
    requires tag { ⟦<Waiter as Machine>⟧.tagged request ≡ (lane.lane, lane.count + 1) }
{
    let mut lane = lane;
    match lane.run(rt, alloc, book, pass, request) {
        Ok((_, reply)) => Some(reply),
        Err(_) => None,
    }
}

/// The lane's next request, which adds so much, is a new client's.
fn next_on<'a, B: Naming>(
    alloc: Global,
    book: &'a Book<Waiter, B>,
    root: &mut Root<Waiter, B>,
    lane: LaneToken<Waiter, B>,
    n: u64,
    after: Option<Arc<Flags>>,
) -> Option<Running<'a, B>>
    requires { root.old.given < 2 ^ 31 }
    ensures given { root.new.given < root.old.given + 2 }
    ensures next { IfSome result (λ job. (job.request ≡ job.pass.order.request) × (⟦<Waiter as Machine>⟧.tagged job.request ≡ (job.lane.lane, job.lane.count + 1))) }
{
    let ordinal = lane.count().checked_add(1)?;
    let request = Request {
        lane: lane.lane(),
        ordinal,
        n,
    };
    let mut client = root.client(book, ());
    let pass = client.pass(book, &request);
    Some(Running {
        alloc,
        book,
        lane,
        pass,
        request,
        after,
    })
}

/// What two requests over a book of two lanes are answered: one of lane 0, which adds 1, and one of lane 1, which adds 10 and
/// is run on another thread once the job of the first was lent. The flags are those of the book's machine, and tell whether the
/// second was run while the first was worked. Fewer lanes, or no thread, are answered as want of memory.
pub fn both_run<B: Naming + Send + Sync, R: Threads + Wait + Sync>(
    rt: &R,
    alloc: Global,
    opened: Opened<Waiter>,
    flags: Arc<Flags>,
) -> Result<(u64, u64), AllocError>
    requires { opened.table ≡ B.table }
{
    let Ok((book, mut root, mut lanes)) = opened.named::<B>(alloc) else {
        return Err(AllocError);
    };
    let (Some(second), Some(first)) = (lanes.pop(), lanes.pop()) else {
        return Err(AllocError);
    };
    let Some(first) = next_on(alloc, &book, &mut root, first, 1, None) else {
        return Err(AllocError);
    };
    let Some(second) = next_on(alloc, &book, &mut root, second, 10, Some(flags)) else {
        return Err(AllocError);
    };
    let over = AtomicBool::new(false);
    match both(rt, &over, second, first) {
        Ok((Some(second), Some(first))) => Ok((first, second)),
        _ => Err(AllocError),
    }
}
