//! Work on threads. A thread's work is a struct behind a bound, so that no closure holds a token or an end of a ring.

ghost use Rattle.std.specs.Prelude.{All, IfOk, length};
ghost use denote.Param.Send.{IsSync, IsSend};
ghost use Rattle.vg_jobs.specs.Jobs.{AllGive};

use std::alloc::AllocError;
use std::marker::{Send, Sync};
use std::snapshot::Snapshot;
use std::sync::Wait;
use std::sync::atomic::{AtomicBool, Ordering};
use std::thread;
use std::thread::{Promise, Scope, Threads, join, map_vec};

/// What a thread does, and gives at its end.
pub trait Job<D: Drop>: Drop {
    // What it needs to begin, and what it may give.
    ghost is_ready: { Self → Type 0 };

    ghost gives: { Self → D → Type 0 };

    fn run<R: Threads + Wait + Sync>(self, rt: &R) -> D
        requires { is_ready self }
        ensures { gives self result };
}

/// Whom jobs that run beside each other ask what they wait for.
pub trait Quit {
    /// Lets each that waits for another go on: not all of them could begin.
    fn quit<R: Wait>(&self, rt: &R);
}

/// Jobs of which none waits for another ask nobody.
#[derive(Drop)]
pub struct Nobody;

impl Quit for Nobody {
    fn quit<R: Wait>(&self, _rt: &R) {}
}

/// The promise that a thread gives what its job may give.
#[derive(Drop)]
struct JobGives<J: Drop> {
    job: Snapshot<J>,
}

impl<D: Drop, J: Job<D>> Promise<D> for JobGives<J> {
    ghost kept_by = { λ p r. J.gives p.job.value r };
}

/// The promise that a thread gives what each of its jobs may give, unless memory lacks.
#[derive(Drop)]
struct LotGives<J: Drop> {
    jobs: Snapshot<Vec<J>>,
}

impl<D: Drop, J: Job<D>> Promise<Result<Vec<D>, AllocError>> for LotGives<J> {
    ghost kept_by = { λ p r. IfOk r (λ v. AllGive J.gives p.jobs.value.items v.items) };
}

/// Runs each job on a thread of its own, and gives what they give, in order.
/// A job that gets no thread runs on another's, before or behind that one's own: jobs that wait for each other may then wait for ever.
pub fn each<D: Drop + Send, J: Job<D> + Send, R: Threads + Wait + Sync>(
    rt: &R,
    jobs: Vec<J>,
) -> Result<Vec<D>, AllocError>
    requires { All J.is_ready jobs.items }
    ensures { IfOk result (λ v. AllGive J.gives jobs.items v.items) }
{
    let run = |job: J| -> D
        requires { IsSync R.row × J.is_ready job }
        ensures { J.gives job result }
    { job.run(rt) };
    map_vec(rt, jobs, &run)
}

/// Runs each job on a thread of its own, the first on this one, and gives what they give, in order. Jobs may wait for each other:
/// where one gets no thread, those that have begun are told by `quit` to wait no more, the others don't begin, and it is answered
/// as want of memory.
fn apart<
    's,
    X: 's,
    D: Drop + Send + 's,
    J: Job<D> + Send + 's,
    Q: Quit,
    R: Threads + Wait + Sync + 's,
>(rt: &'s R, scope: &Scope<'s, X>, jobs: Vec<J>, quit: &Q) -> Result<Vec<D>, AllocError>
    requires { All J.is_ready jobs.items }
    ensures { IfOk result (λ v. AllGive J.gives jobs.items v.items) }
{
    if jobs.len() < 2 {
        return each(rt, jobs);
    }
    let mut others = jobs;
    let Some(last) = others.pop() else {
        return each(rt, others);
    };
    let job = Snapshot::of(&last);
    let begun = scope.spawn_with(
        JobGives { job },
        move || -> D
            requires { IsSync R.row × J.is_ready last }
            ensures { J.gives last result }
        { last.run(rt) },
    );
    let Ok(child) = begun else {
        quit.quit(rt);
        return Err(AllocError);
    };
    let given = apart(rt, scope, others, quit);
    let end = child.join(rt);
    let mut given = given?;
    given.push(end)?;
    Ok(given)
}

/// Runs both lots of jobs, and raises the flag once the first are done. Each of the first has a thread of its own, of which one is
/// this; the second run on others. Where the second get no thread beside this one, no job runs; where one of the first gets none,
/// those that have begun are told by `quit` to wait no more. Both are answered as want of memory.
pub fn all<
    D: Drop + Send,
    E: Drop + Send,
    A: Job<D> + Send,
    W: Job<E> + Send,
    Q: Quit + Sync,
    R: Threads + Wait + Sync,
>(
    rt: &R,
    stop: &AtomicBool,
    first: Vec<A>,
    second: Vec<W>,
    quit: &Q,
) -> Result<(Vec<D>, Vec<E>), AllocError>
    requires { All A.is_ready first.items × All W.is_ready second.items }
    ensures { IfOk result (λ r. AllGive A.gives first.items r.0.items × AllGive W.gives second.items r.1.items) }
{
    thread::scope(
        thread::scope_env(),
        rt,
        move |scope| -> Result<(Vec<D>, Vec<E>), AllocError>
            requires { IsSync R.row × IsSend D.row × IsSend A.row × IsSend E.row × IsSend W.row × All A.is_ready first.items × All W.is_ready second.items }
            ensures { IfOk result (λ r. AllGive A.gives first.items r.0.items × AllGive W.gives second.items r.1.items) }
        {
            let jobs = Snapshot::of(&second);
            let child = scope.spawn_with(
                LotGives { jobs },
                move || -> Result<Vec<E>, AllocError>
                    requires { IsSync R.row × IsSend E.row × IsSend W.row × All W.is_ready second.items }
                    ensures { IfOk result (λ v. AllGive W.gives second.items v.items) }
                { each_last_here(rt, second) },
            )?;
            let done = apart(rt, scope, first, quit);
            stop.store(true, Ordering::SeqCst);
            let served = child.join(rt);
            Ok((done?, served?))
        },
    )
}

/// Runs each job as `each` does, the last one on the thread that calls: that one needs neither memory nor a thread to begin.
/// So a job runs even where memory lacks for the others, and nobody who needs its work waits for ever.
fn each_last_here<D: Drop + Send, J: Job<D> + Send, R: Threads + Wait + Sync>(
    rt: &R,
    jobs: Vec<J>,
) -> Result<Vec<D>, AllocError>
    requires { All J.is_ready jobs.items }
    ensures { IfOk result (λ v. AllGive J.gives jobs.items v.items) }
{
    let mut others = jobs;
    let Some(last) = others.pop() else {
        return each(rt, others);
    };
    let (given, end) = join(
        rt,
        move || -> Result<Vec<D>, AllocError>
            requires { IsSync R.row × IsSend D.row × IsSend J.row × All J.is_ready others.items }
            ensures { IfOk result (λ v. AllGive J.gives others.items v.items) }
        { each(rt, others) },
        move || -> D
            requires { IsSync R.row × J.is_ready last }
            ensures { J.gives last result }
        { last.run(rt) },
    );
    let mut given = given?;
    given.push(end)?;
    Ok(given)
}

/// Runs the first job on a thread of its own, the second on this one, and raises the flag once the first is done.
/// Where no thread can be made, neither runs, and that is answered as want of memory.
pub fn both<
    D: Drop + Send,
    E: Drop + Send,
    A: Job<D> + Send,
    B: Job<E> + Send,
    R: Threads + Wait + Sync,
>(rt: &R, stop: &AtomicBool, first: A, second: B) -> Result<(D, E), AllocError>
    requires { A.is_ready first × B.is_ready second }
    ensures { IfOk result (λ r. A.gives first r.0 × B.gives second r.1) }
{
    thread::scope(
        thread::scope_env(),
        rt,
        move |scope| -> Result<(D, E), AllocError>
            requires { IsSync R.row × IsSend D.row × IsSend A.row × A.is_ready first × B.is_ready second }
            ensures { IfOk result (λ r. A.gives first r.0 × B.gives second r.1) }
        {
            let job = Snapshot::of(&first);
            let child = scope.spawn_with(
                JobGives { job },
                move || -> D
                    requires { IsSync R.row × A.is_ready first }
                    ensures { A.gives first result }
                {
                    let done = first.run(rt);
                    stop.store(true, Ordering::SeqCst);
                    done
                },
            )?;
            let served = second.run(rt);
            Ok((child.join(rt), served))
        },
    )
}
