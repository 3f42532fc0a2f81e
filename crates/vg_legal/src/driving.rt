//! A script's run: a book over a display, two rings, and a session over them.

ghost use Rattle.std.specs.Prelude.{◌≡◌, ◌≤◌, length, Some, IfOk};
ghost use Rattle.vg_wire.specs.declared.request.Queue.TheVariants as queues;
ghost use Rattle.vg_cargo.specs.DeviceEnds.{DeviceLists};
ghost use Rattle.vg_front.specs.Desks as desks;
ghost use Rattle.vg_device.specs.State.{start};
ghost use Rattle.vg_script.specs.Limits.{ScriptInLimits};
ghost use Rattle.vg_script_part.specs.Setup as setups;
ghost use Rattle.vg_run_threads.specs.Session.{HaveCompleted};
ghost use Rattle.vg_legal.specs.Legal.{IsLegalJournal};

use crate::journal::journal_of;
use crate::laws::clients_make_one_history;
use std::alloc::{AllocError, Global};
use std::marker::{Brand, Send, Sync};
use std::sync::Wait;
use std::thread::Threads;
use vg_book::{Carried, LaneToken, Naming, Opened, calls_stand_behind};
use vg_driver::Driver;
use vg_front::Front;
use vg_history::Turn;
use vg_journal::Journal;
use vg_machine::{Display, Setup};
use vg_notify::Bell;
use vg_ring::{ControlOf, CursorOf, DeviceEnd, Made, Ring, Rings};
use vg_run_threads::{Closed, Shared, close, run_threads};
use vg_script::Script;
use vg_script_part::setup_of;
use vg_wire::Queue;
use vg_worker::Gate;

/// How many lanes there are: the control queue's without a ring index, one for each of 64 ring indices, and the cursor queue's.
const LANES: u32 = 66;

/// A display in a book that was just opened, and two rings that were just made.
#[derive(Drop)]
pub struct Device<B: Naming> {
    pub opened: Opened<Display>,
    pub control: Made<Carried<Display, B>>,
    pub cursor: Made<Carried<Display, B>>,
}

/// What a run leaves: its journal, and the device's ends of both rings.
#[derive(Drop)]
pub struct Driven<B: Naming, N: Rings> {
    pub journal: Journal,
    pub control: DeviceEnd<Carried<Display, B>, ControlOf<N>>,
    pub cursor: DeviceEnd<Carried<Display, B>, CursorOf<N>>,
}

/// Runs each client of a script on a thread of its own beside so many workers of the device, and gives the journal. Where no line
/// begins a command there are no more workers than clients.
pub fn drive<G: Gate, R: Threads + Wait + Sync>(
    rt: &R,
    alloc: Global,
    script: Script,
    workers: u32,
    gate: &G,
) -> Result<Journal, AllocError>
    requires limits { ScriptInLimits script }
    requires workers { (1 ≤ workers) × (workers ≤ 8) }
    ensures journal { IfOk result (IsLegalJournal script) }
    ensures completed { IfOk result (λ journal. (control cursor : DeviceLists) × HaveCompleted journal.entries control cursor) }
{
    let setup = setup_of(alloc, &script)?;
    let display = Display::new(alloc, &setup)?;
    let opened = Opened::new(alloc, display, LANES)?;
    with_rings::<Brand, G, R>(rt, alloc, opened, setup, script, workers, gate)
}

/// The same in a book that was just opened, under its name, over rings that are made for it.
fn with_rings<B: Naming + Send + Sync, G: Gate, R: Threads + Wait + Sync>(
    rt: &R,
    alloc: Global,
    opened: Opened<Display>,
    setup: Setup,
    script: Script,
    workers: u32,
    gate: &G,
) -> Result<Journal, AllocError>
    requires limits { ScriptInLimits script }
    requires workers { (1 ≤ workers) × (workers ≤ 8) }
    requires setup { setup ≡ setups.setup_of script }
    requires book { (opened.table ≡ B.table) × (opened.lanes ≡ 66) }
    requires start { opened.start ≡ Some (start setup) }
    ensures journal { IfOk result (IsLegalJournal script) }
    ensures completed { IfOk result (λ journal. (control cursor : DeviceLists) × HaveCompleted journal.entries control cursor) }
{
    let (control_size, cursor_size) = setup.queues;
    let control = Ring::make::<Carried<Display, B>>(alloc, Queue::Control, control_size)?;
    let cursor = Ring::make::<Carried<Display, B>>(alloc, Queue::Cursor, cursor_size)?;
    let device = Device {
        opened,
        control,
        cursor,
    };
    journal_in::<B, Brand, G, R>(rt, alloc, device, setup, script, workers, gate)
}

/// The same in a book and over rings under their names, of whose ends nothing is left.
fn journal_in<B: Naming + Send + Sync, N: Rings + Send + Sync, G: Gate, R: Threads + Wait + Sync>(
    rt: &R,
    alloc: Global,
    device: Device<B>,
    setup: Setup,
    script: Script,
    workers: u32,
    gate: &G,
) -> Result<Journal, AllocError>
    requires limits { ScriptInLimits script }
    requires workers { (1 ≤ workers) × (workers ≤ 8) }
    requires setup { setup ≡ setups.setup_of script }
    requires book { (device.opened.table ≡ B.table) × (device.opened.lanes ≡ 66) }
    requires start { device.opened.start ≡ Some (start setup) }
    requires control { (device.control.table ≡ N.control) × (device.control.queue ≡ queues.Control) }
    requires cursor { (device.cursor.table ≡ N.cursor) × (device.cursor.queue ≡ queues.Cursor) }
    ensures journal { IfOk result (IsLegalJournal script) }
    ensures completed { IfOk result (λ journal. (control cursor : DeviceLists) × HaveCompleted journal.entries control cursor) }
{
    let driven = drive_in::<B, N, G, R>(rt, alloc, device, setup, script, workers, gate)?;
    let Driven { journal, .. } = driven;
    Ok(journal)
}

/// The same in a book and over rings under their names.
pub fn drive_in<B: Naming + Send + Sync, N: Rings + Send + Sync, G: Gate, R: Threads + Wait + Sync>(
    rt: &R,
    alloc: Global,
    device: Device<B>,
    setup: Setup,
    script: Script,
    workers: u32,
    gate: &G,
) -> Result<Driven<B, N>, AllocError>
    requires limits { ScriptInLimits script }
    requires workers { (1 ≤ workers) × (workers ≤ 8) }
    requires setup { setup ≡ setups.setup_of script }
    requires book { (device.opened.table ≡ B.table) × (device.opened.lanes ≡ 66) }
    requires start { device.opened.start ≡ Some (start setup) }
    requires control { (device.control.table ≡ N.control) × (device.control.queue ≡ queues.Control) }
    requires cursor { (device.cursor.table ≡ N.cursor) × (device.cursor.queue ≡ queues.Cursor) }
    ensures journal { IfOk result (λ driven. IsLegalJournal script driven.journal) }
    ensures completed { IfOk result (λ driven. HaveCompleted driven.journal.entries driven.control driven.cursor) }
{
    // Laws, and no work: each client has seen all that the history has of it, and so it is one that the clients can have.
    calls_stand_behind::<Display>();
    clients_make_one_history();
    let Device {
        opened,
        control,
        cursor,
    } = device;
    let (book, root, tokens) = opened.named::<B>(alloc)?;
    let mut root = root;
    let (driver, front) = ends::<B, N>(alloc, control, cursor, tokens)?;
    let shared = Shared {
        alloc,
        book: &book,
        driver: &driver,
        gate,
    };
    let front = run_threads(rt, shared, &mut root, front, &setup, script, workers)?;
    let closed = close(rt, book, root, driver, front)?;
    let Closed {
        history,
        frames,
        control,
        cursor,
    } = closed;
    Ok(Driven {
        journal: journal_of(setup, history, frames),
        control,
        cursor,
    })
}

/// The driver's side of both rings and the device's, which has all lanes, with a bell for each ring.
fn ends<B: Naming, N: Rings>(
    alloc: Global,
    control: Made<Carried<Display, B>>,
    cursor: Made<Carried<Display, B>>,
    tokens: Vec<LaneToken<Display, B>>,
) -> Result<
    (
        Driver<B, N>,
        Front<Carried<Display, B>, LaneToken<Display, B>, N>,
    ),
    AllocError,
>
    requires control { (control.table ≡ N.control) × (control.queue ≡ queues.Control) }
    requires cursor { (cursor.table ≡ N.cursor) × (cursor.queue ≡ queues.Cursor) }
    requires tokens { (length tokens.items ≡ 66) × desks.AreNew ⟦<LaneToken<Display, B> as Turn>⟧.lane_of ⟦<LaneToken<Display, B> as Turn>⟧.count_of 0 tokens.items }
{
    let (control, device) = control.named::<ControlOf<N>>();
    let (cursor, pointer) = cursor.named::<CursorOf<N>>();
    let (control_bell, device_bell) = Bell::make(alloc)?;
    let (cursor_bell, pointer_bell) = Bell::make(alloc)?;
    let driver = Driver::new(alloc, control, cursor, control_bell, cursor_bell)?;
    let front = Front::new(alloc, device, pointer, device_bell, pointer_bell, tokens)?;
    Ok((driver, front))
}
