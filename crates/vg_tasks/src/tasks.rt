//! The tasks of each call.

ghost use Rattle.std.specs.Prelude.{◌≡◌, ◌<◌, ◌≤◌, ◌+◌, ◌*◌, ◌^◌, ◌++◌, ◌∷◌, [], if◌then◌else◌, map, length, Ok, OnOk, OnErr, IfOk, IfErr, IfSome};
ghost use Rattle.std.specs.List.{AllByRecursion};
ghost use Rattle.vg_tasks.specs.Plans.{IsBodyFit, IsCallFit, Plans, weights};
ghost use Rattle.vg_tasks.specs.Fits.{IsFit};
ghost use Rattle.vg_client_holds.specs.Holds.{Deniable as MayDeny, has_number};
ghost use Rattle.vg_client_holds.specs.declared.act.What.TheVariants as whats;
ghost use Rattle.vg_tasks.specs.Table as table;
ghost use Rattle.vg_tasks.specs.Tasks as plan;
ghost use Rattle.vg_tasks.specs.Tasks.{clear_tasks, leases_back, with_held};
ghost use Rattle.vg_names.specs.Names.{has_one_name};

use crate::queue::Tasks;
use crate::task::{
    Task, act_task, attach_context_task, begun_way, clear_task, cursor_task, detach_context_task,
    drop_task, edid_task, end_context_task, export_task, flush_on, flush_task, hide_cursor_task,
    hide_task, import_task, info_on, info_task, load_task, make_context_task, move_task,
    no_import_task, raw_task, release_task, reserve_blob_task, reserve_task, send_on, send_task,
    show_blob_task, show_task, store_task, submit_task, uuid_task, wait_task,
};
use std::alloc::{AllocError, Global};
use vg_calls::{Body, Call, ContextRef, NameRef};
use vg_client_holds::{Act, Holds, What};
use vg_formats::Rect;
use vg_history::Fence;
use vg_list::Seq;
use vg_names::{Contexts, Held, Names};

/// What is to be done by what a name stands for. Where the name isn't current the call is denied for it.
macro_rules! with_held {
    ($names:expr, $name:expr, $held:ident => $tasks:expr) => {
        match $names.find($name.number) {
            Some($held) => $tasks,
            None => Ok(Err(What::Name)),
        }
    };
}

/// What is to be done by a context of the client. Where its name isn't current the call is denied for it.
macro_rules! with_context {
    ($contexts:expr, $context:expr, $tasks:expr) => {
        if $contexts.is_current($context.number) {
            $tasks
        } else {
            Ok(Err(What::Name))
        }
    };
}

/// The tasks of a call, or what is denied before there is any.
pub fn tasks_of(
    alloc: Global,
    holds: &Holds,
    names: &Names,
    contexts: &Contexts,
    shows: &[Option<u32>],
    call: Call,
) -> Result<Result<Tasks, What>, AllocError>
    requires call { IsCallFit holds.now.displays call }
    requires shows { length shows.now ≤ 16 }
    requires contexts { contexts.now.made < 2 ^ 31 }
    ensures plans { Plans (plan.tasks_of (record { holds = holds.now; names = names.now; contexts = contexts.now; shows = shows.now }) call) result }
    ensures denied { IfOk result (λ done. IfErr done (MayDeny holds.now)) }
{
    match call {
        Call::Info => one(alloc, info_task()),
        Call::Edid { scanout } => one(alloc, edid_task(scanout)),
        Call::Buffer {
            width,
            height,
            format,
        } => one(alloc, reserve_task(width, height, format)),
        Call::Blob { size } => one(alloc, reserve_blob_task(size)),
        Call::Store {
            name,
            offset,
            bytes,
            times,
        } =>
            with_held!(names, name, held => one(alloc, store_task(held.key, offset, bytes, times))),
        Call::Load {
            name,
            offset,
            length,
        } => with_held!(names, name, held => one(alloc, load_task(held.key, offset, length))),
        Call::Send { name, rect } => {
            with_held!(names, name, held => one(alloc, send_task(held, rect)))
        }
        Call::Flush { name, rect } => {
            with_held!(names, name, held => one(alloc, flush_task(held.key, rect)))
        }
        Call::Take { scanout } => one(alloc, act_task(Act::Take { scanout })),
        Call::Drop { scanout } => drop_tasks(alloc, holds, scanout),
        Call::Hide { scanout } => one(alloc, hide_task(scanout)),
        Call::Show {
            scanout,
            name,
            rect,
        } => with_held!(names, name, held => one(alloc, show_task(scanout, held.key, rect))),
        Call::ShowBlob {
            scanout,
            name,
            rect,
            width,
            height,
            format,
            stride,
            offset,
        } => with_held!(names, name, held => one(
            alloc,
            show_blob_task(scanout, held.key, rect, width, height, format, stride, offset),
        )),
        Call::Flip { scanout, name } => {
            with_held!(names, name, held => flip_held(alloc, scanout, held))
        }
        Call::Cursor {
            scanout,
            name,
            x,
            y,
            hot_x,
            hot_y,
        } => cursor_tasks(alloc, names, scanout, name, x, y, hot_x, hot_y),
        Call::Move { scanout, x, y } => one(alloc, move_task(scanout, x, y)),
        Call::Context => one(alloc, make_context_task(holds.client, contexts.made() + 1)),
        Call::EndContext { context } => with_context!(
            contexts,
            context,
            one(alloc, end_context_task(holds.client, context.number))
        ),
        Call::Attach { context, name } => with_context!(
            contexts,
            context,
            with_held!(names, name, held => one(
                alloc,
                attach_context_task(holds.client, context.number, held.key),
            ))
        ),
        Call::Detach { context, name } => with_context!(
            contexts,
            context,
            with_held!(names, name, held => one(
                alloc,
                detach_context_task(holds.client, context.number, held.key),
            ))
        ),
        Call::Submit { context, ring } => with_context!(
            contexts,
            context,
            one(
                alloc,
                submit_task(alloc, holds.client, context.number, ring)
            )
        ),
        Call::Uuid { name } => with_held!(names, name, held => one(alloc, uuid_task(held.key))),
        Call::Export { name, .. } => {
            with_held!(names, name, held => one(alloc, export_task(held.key)))
        }
        Call::Import { token, .. } => import_tasks(alloc, token),
        Call::Begin { timeline, body, .. } => {
            begun_tasks(alloc, holds, names, contexts, timeline, body)
        }
        Call::Await { fence, .. } => await_tasks(alloc, fence),
        Call::Raw {
            queue,
            room,
            shape,
            bytes,
        } => one(alloc, raw_task(queue, room, shape, bytes)),
        Call::Close { name } => {
            with_held!(names, name, held => close_held(alloc, names, shows, held))
        }
    }
}

/// The one command of a call that begins it.
fn begun_tasks(
    alloc: Global,
    holds: &Holds,
    names: &Names,
    contexts: &Contexts,
    timeline: Option<(ContextRef, u8)>,
    body: Body,
) -> Result<Result<Tasks, What>, AllocError>
    requires timeline { IfSome timeline (λ t. t.1 < 64) }
    requires body { IsBodyFit body }
    ensures plans { Plans (plan.on_timeline contexts.now timeline (plan.body_tasks (record { holds = holds.now; names = names.now; contexts = contexts.now; shows = [] }) (table.begun_way holds.now.client timeline) body)) result }
    ensures denied { IfOk result (λ done. IfErr done (λ what. what ≡ whats.Name)) }
{
    if !is_timeline(contexts, timeline) {
        return Ok(Err(What::Name));
    }
    let way = begun_way(holds.client, timeline);
    match body {
        Body::Info => one(alloc, info_on(way)),
        Body::Send { name, rect } => with_held!(names, name, held => one(
            alloc,
            send_on(way, held, rect),
        )),
        Body::Flush { name, rect } => {
            with_held!(names, name, held => one(alloc, flush_on(way, held.key, rect)))
        }
        Body::Submit { context, ring } => with_context!(
            contexts,
            context,
            one(
                alloc,
                submit_task(alloc, holds.client, context.number, ring)
            )
        ),
    }
}

/// Whether the context of a timeline is current, where there is one.
fn is_timeline(contexts: &Contexts, timeline: Option<(ContextRef, u8)>) -> bool
    ensures { result ≡ plan.is_timeline contexts.now timeline }
{
    match timeline {
        Some((context, _)) => contexts.is_current(context.number),
        None => true,
    }
}

/// The wait for a fence, if there is one.
fn await_tasks(alloc: Global, fence: Option<Fence>) -> Result<Result<Tasks, What>, AllocError>
    ensures plans { Plans (plan.await_tasks fence) result }
    ensures denied { IfOk result (λ done. IfErr done (λ what. what ≡ whats.Name)) }
{
    match fence {
        Some(fence) => one(alloc, wait_task(fence)),
        None => Ok(Err(What::Name)),
    }
}

/// Whether a call begins its one command, and goes on without the reply.
pub fn begins(call: &Call) -> bool
    ensures { result ≡ plan.begins call.now }
{
    match call {
        Call::Begin { .. } => true,
        _ => false,
    }
}

/// Whether a call gives up a lease, a buffer or a context.
pub fn gives_up(call: &Call) -> bool
    ensures { result ≡ plan.gives_up call.now }
{
    match call {
        Call::Drop { .. } | Call::Close { .. } | Call::EndContext { .. } => true,
        _ => false,
    }
}

fn one(alloc: Global, task: Task) -> Result<Result<Tasks, What>, AllocError>
    requires { IsFit task }
    ensures plans { Plans (Ok (task ∷ [])) result }
    ensures denied { IfOk result (λ done. OnErr done ⊥) }
{
    Ok(Ok(Tasks::one(alloc, task)))
}

/// Three tasks, each of which gives one entry.
fn three(
    alloc: Global,
    first: Task,
    second: Task,
    third: Task,
) -> Result<Result<Tasks, What>, AllocError>
    requires fit { IsFit first × IsFit second × IsFit third }
    requires few { weights (first ∷ second ∷ third ∷ []) ≤ 19 }
    ensures plans { Plans (Ok (first ∷ second ∷ third ∷ [])) result }
    ensures denied { IfOk result (λ done. OnErr done ⊥) }
{
    let mut tasks = Tasks::one(alloc, first);
    tasks.push(second)?;
    tasks.push(third)?;
    Ok(Ok(tasks))
}

/// The whole of a buffer.
fn whole_of(held: Held) -> Rect
    ensures { result ≡ plan.whole_of held }
{
    Rect {
        x: 0,
        y: 0,
        width: held.width,
        height: held.height,
    }
}

fn flip_held(alloc: Global, scanout: u32, held: Held) -> Result<Result<Tasks, What>, AllocError>
    ensures plans { Plans (Ok (plan.flip_tasks scanout held)) result }
    ensures denied { IfOk result (λ done. OnErr done ⊥) }
{
    let rect = whole_of(held);
    let send = send_task(held, rect);
    let show = show_task(scanout, held.key, rect);
    let flush = flush_task(held.key, rect);
    three(alloc, send, show, flush)
}

fn cursor_tasks(
    alloc: Global,
    names: &Names,
    scanout: u32,
    name: Option<NameRef>,
    x: i32,
    y: i32,
    hot_x: u32,
    hot_y: u32,
) -> Result<Result<Tasks, What>, AllocError>
    ensures plans { Plans (plan.cursor_tasks names.now scanout name x y hot_x hot_y) result }
    ensures denied { IfOk result (λ done. IfErr done (λ what. what ≡ whats.Name)) }
{
    let Some(name) = name else {
        return one(alloc, cursor_task(scanout, 0, x, y, hot_x, hot_y));
    };
    with_held!(names, name, held => one(alloc, cursor_task(scanout, held.key, x, y, hot_x, hot_y)))
}

fn drop_tasks(alloc: Global, holds: &Holds, scanout: u32) -> Result<Result<Tasks, What>, AllocError>
    requires { scanout < holds.now.displays }
    ensures plans { Plans (plan.drop_tasks holds.now scanout) result }
    ensures denied { IfOk result (λ done. IfErr done (MayDeny holds.now)) }
{
    if is_leased(holds, scanout) {
        let hide = hide_cursor_task(scanout);
        three(alloc, clear_task(scanout), hide, drop_task(scanout))
    } else {
        Ok(Err(What::Scanout { n: scanout }))
    }
}

/// Whether the scanout is leased to the client.
fn is_leased(holds: &Holds, scanout: u32) -> bool
    ensures { result ≡ has_number scanout holds.now.scanouts }
{
    holds.scanouts.as_slice().contains(&scanout)
}

fn import_tasks(alloc: Global, token: Option<u32>) -> Result<Result<Tasks, What>, AllocError>
    ensures plans { Plans (Ok (plan.import_tasks token)) result }
    ensures denied { IfOk result (λ done. OnErr done ⊥) }
{
    match token {
        Some(token) => one(alloc, import_task(token)),
        None => one(alloc, no_import_task()),
    }
}

fn close_held(
    alloc: Global,
    names: &Names,
    shows: &[Option<u32>],
    held: Held,
) -> Result<Result<Tasks, What>, AllocError>
    requires { length shows.now ≤ 16 }
    ensures plans { Plans (Ok (plan.close_tasks names.now.current shows.now held)) result }
    ensures denied { IfOk result (λ done. OnErr done ⊥) }
{
    let mut tasks = clear_only(alloc, names, shows, held)?;
    tasks.push(release_task(held))?;
    Ok(Ok(tasks))
}

/// Disables each scanout on which the client shows the buffer of its only name for it.
fn clear_only(
    alloc: Global,
    names: &Names,
    shows: &[Option<u32>],
    held: Held,
) -> Result<Tasks, AllocError>
    requires { length shows.now ≤ 16 }
    ensures { IfOk result (λ tasks. tasks ≡ (if has_one_name held.key names.now.current then clear_tasks held.key 0 shows.now else [])) }
{
    let tasks = clear_each(alloc, held.key, shows)?;
    if tasks.len() == 0 {
        // Nothing is shown, so there is no need to look at the names.
        return Ok(tasks);
    }
    if names.has_one_name(held.key) {
        Ok(tasks)
    } else {
        Ok(Tasks::new(alloc))
    }
}

/// Disables each scanout on which the client shows the key.
fn clear_each(alloc: Global, key: u32, shows: &[Option<u32>]) -> Result<Tasks, AllocError>
    requires { length shows.now ≤ 16 }
    ensures { IfOk result (λ tasks. tasks ≡ clear_tasks key 0 shows.now) }
{
    let mut tasks = Tasks::new(alloc);
    for (scanout, shown) in shows.iter().enumerate() {
        clear_shown(&mut tasks, key, scanout as u32, *shown)?;
    }
    Ok(tasks)
}

/// Disables a scanout that shows the key.
fn clear_shown(
    tasks: &mut Tasks,
    key: u32,
    scanout: u32,
    shown: Option<u32>,
) -> Result<(), AllocError>
    ensures { OnOk result (tasks.new ≡ tasks.old ++ (if plan.is_shown key shown then table.clear_task scanout ∷ [] else [])) }
{
    if is_shown(key, shown) {
        tasks.push(clear_task(scanout))?;
    }
    Ok(())
}

fn is_shown(key: u32, shown: Option<u32>) -> bool
    ensures { result ≡ plan.is_shown key shown }
{
    match shown {
        Some(other) => other == key,
        None => false,
    }
}

/// What the client gives up at its end: its leases, rising, its contexts, and then its buffers, in the order in which they were made.
pub fn end_tasks(
    alloc: Global,
    holds: &Holds,
    names: &Names,
    contexts: &Contexts,
) -> Result<Tasks, AllocError>
    ensures tasks { IfOk result (λ tasks. tasks
        ≡ leases_back holds.now.scanouts 0 holds.now.displays ++ map (table.end_context_task holds.now.client) contexts.now.current
        ++ map table.release_task names.now.current) }
    ensures fit { IfOk result (λ tasks. AllByRecursion IsFit tasks) }
    ensures few { IfOk result (λ tasks. weights tasks ≤ 3 * holds.now.displays + length contexts.now.current + 3 * length names.now.current) }
{
    let mut tasks = give_back_each(alloc, holds)?;
    end_each(&mut tasks, holds.client, contexts.current())?;
    let current = names.current(alloc)?;
    release_each(&mut tasks, current.as_slice())?;
    Ok(tasks)
}

/// Gives back each scanout that is leased to the client.
fn give_back_each(alloc: Global, holds: &Holds) -> Result<Tasks, AllocError>
    ensures { IfOk result (λ tasks. tasks ≡ leases_back holds.now.scanouts 0 holds.now.displays) }
{
    let mut tasks = Tasks::new(alloc);
    for scanout in 0..holds.displays {
        give_back_leased(&mut tasks, holds, scanout)?;
    }
    Ok(tasks)
}

/// Gives back a scanout that is leased to the client.
fn give_back_leased(tasks: &mut Tasks, holds: &Holds, scanout: u32) -> Result<(), AllocError>
    ensures { OnOk result (tasks.new ≡ tasks.old
        ++ (if has_number scanout holds.now.scanouts then plan.give_back scanout else [])) }
{
    if is_leased(holds, scanout) {
        tasks.push(clear_task(scanout))?;
        tasks.push(hide_cursor_task(scanout))?;
        tasks.push(drop_task(scanout))?;
    }
    Ok(())
}

/// Ends each of these contexts.
fn end_each(tasks: &mut Tasks, client: u32, current: &[u32]) -> Result<(), AllocError>
    ensures { OnOk result (tasks.new ≡ tasks.old ++ map (table.end_context_task client) current.now) }
{
    for number in current {
        tasks.push(end_context_task(client, *number))?;
    }
    Ok(())
}

/// Gives up each of these buffers.
fn release_each(tasks: &mut Tasks, current: &[Held]) -> Result<(), AllocError>
    ensures { OnOk result (tasks.new ≡ tasks.old ++ map table.release_task current.now) }
{
    for held in current {
        tasks.push(release_task(*held))?;
    }
    Ok(())
}
