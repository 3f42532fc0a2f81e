//! Clients that add, many times over, one alone and two on threads.

ghost use Rattle.std.specs.Prelude.{◌≡◌, ◌<◌, ◌-◌, ◌^◌, [], Some, All, map, IfOk, OnOk};
ghost use Rattle.vg_book_uses.specs.Adding.{AreNew, HasAdded, HasTakenAll, HaveAllAdded, IsKnown, IsRootWith, IsWhole};

use crate::counter::{Act, Counter};
use std::alloc::{AllocError, Global};
use std::marker::{Send, Sync};
use std::sync::Wait;
use std::thread::Threads;
use vg_book::{Book, ClientToken, Naming, Opened, Root};
use vg_history::{History, Machine};
use vg_jobs::{Job, each};

/// Adds 1 so many times, for a client with nothing outstanding.
pub fn add_times<B: Naming, R: Wait>(
    rt: &R,
    alloc: Global,
    book: &Book<Counter, B>,
    client: ClientToken<Counter, B>,
    times: u64,
) -> Result<ClientToken<Counter, B>, AllocError>
    requires known { IsKnown ⟦<Counter as Machine>⟧ client }
    ensures { IfOk result (λ c. HasAdded ⟦<Counter as Machine>⟧ client times c) }
{
    let mut client = client;
    for _turn in 0..times {
        client.act(rt, alloc, book, Act::Add { n: 1 })?;
    }
    Ok(client)
}

/// A client that is to add 1 so many times, on a thread.
#[derive(Drop)]
struct Adding<'a, B: Naming> {
    alloc: Global,
    book: &'a Book<Counter, B>,
    client: ClientToken<Counter, B>,
    times: u64,
}

impl<'a, B: Naming> Job<Result<ClientToken<Counter, B>, AllocError>> for Adding<'a, B> {
    ghost use Rattle.std.specs.Prelude.{IfOk};
    ghost use Rattle.vg_book_uses.specs.Adding.{HasAdded, IsKnown};

    ghost is_ready = { λ job. IsKnown ⟦<Counter as Machine>⟧ job.client };

    ghost gives = { λ job result. IfOk result (λ c. HasAdded ⟦<Counter as Machine>⟧ job.client job.times c) };

    fn run<R: Threads + Wait + Sync>(self, rt: &R) -> Result<ClientToken<Counter, B>, AllocError> {
        add_times(rt, self.alloc, self.book, self.client, self.times)
    }
}

/// So many new clients, each of which is to add 1 so many times.
fn adders<'a, B: Naming>(
    alloc: Global,
    book: &'a Book<Counter, B>,
    root: &mut Root<Counter, B>,
    count: u32,
    times: u64,
) -> Result<Vec<Adding<'a, B>>, AllocError>
    requires first { (root.old.given ≡ 0) × (root.old.accounts ≡ []) × (root.old.lanes ≡ []) }
    requires count { count < 2 ^ 32 - 1 }
    ensures root { OnOk result (IsRootWith count root.old root.new) }
    ensures clients { IfOk result (λ v. AreNew ⟦<Counter as Machine>⟧ root.old.start 0 count (map (λ job. job.client) v.items)) }
    ensures times { IfOk result (λ v. All (λ job. job.times ≡ times) v.items) }
{
    let mut jobs = Vec::new(alloc);
    for _made in 0..count {
        let client = root.client(book, 0);
        jobs.push(Adding {
            alloc,
            book,
            client,
            times,
        })?;
    }
    Ok(jobs)
}

/// Takes in all clients, which have nothing outstanding, unless one of them found no memory.
pub(crate) fn join_all<B: Naming>(
    book: &Book<Counter, B>,
    root: &mut Root<Counter, B>,
    clients: Vec<Result<ClientToken<Counter, B>, AllocError>>,
) -> Result<(), AllocError>
    requires { All (λ r. IfOk r (λ c. c.account.out ≡ [])) clients.items }
    ensures { OnOk result (HasTakenAll root.old clients.items root.new) }
{
    for client in clients {
        root.join(book, client?);
    }
    Ok(())
}

/// So many clients add 1 so many times each, on threads of their own, to a counter that nobody else has.
pub fn all_add<B: Naming + Send + Sync, R: Threads + Wait + Sync>(
    rt: &R,
    alloc: Global,
    opened: Opened<Counter>,
    count: u32,
    times: u64,
) -> Result<(Counter, History<Counter>), AllocError>
    requires book { (opened.table ≡ B.table) × (opened.lanes ≡ 0) }
    requires count { count < 2 ^ 32 - 1 }
    ensures whole { IfOk result (λ r. (s : _) → opened.start ≡ Some s → IsWhole ⟦<Counter as Machine>⟧ s r.0 r.1) }
    ensures added { IfOk result (λ r. HaveAllAdded count times r.1) }
{
    let Ok((book, mut root, _)) = opened.named::<B>(alloc) else {
        return Err(AllocError);
    };
    let Ok(jobs) = adders(alloc, &book, &mut root, count, times) else {
        return Err(AllocError);
    };
    let Ok(clients) = each(rt, jobs) else {
        return Err(AllocError);
    };
    join_all(&book, &mut root, clients)?;
    Ok(book.close(root))
}
