//! What is left of a session once its threads are done: its front is served, and its book closed.

ghost use Rattle.std.specs.Prelude.{◌≡◌, length, IfOk};
ghost use Rattle.vg_driver.specs.Halves.{HasHeard};
ghost use Rattle.vg_run_threads.specs.Session.{AreAsked, HasTakenLanes, HaveAllJoined, HaveCompleted, IsEnd, IsStill};

use std::alloc::{AllocError, Global};
use std::sync::atomic::AtomicBool;
use std::sync::{Mutex, Wait};
use vg_book::{Book, Carried, LaneToken, Naming, Root};
use vg_driver::Driver;
use vg_front::Front;
use vg_history::Tagged;
use vg_machine::{Display, Frame, History};
use vg_ring::{ControlOf, CursorOf, DeviceEnd, DriverEnd, Rings, ends_agree};
use vg_worker::{Gate, serve};

/// What is left of a book and a front once all have joined: the history, the display's frames, and the ends of both rings.
#[derive(Drop)]
pub struct Closed<B: Naming, N: Rings> {
    pub history: History,
    pub frames: Vec<Frame>,
    pub control: DeviceEnd<Carried<Display, B>, ControlOf<N>>,
    pub cursor: DeviceEnd<Carried<Display, B>, CursorOf<N>>,
}

/// Serves what the front still has, and gives the front.
pub(crate) fn settle<G: Gate, B: Naming, N: Rings, R: Wait>(
    rt: &R,
    alloc: Global,
    front: Front<Carried<Display, B>, LaneToken<Display, B>, N>,
    book: &Book<Display, B>,
    gate: &G,
) -> Front<Carried<Display, B>, LaneToken<Display, B>, N>
    ensures { IsStill result }
{
    let mut front = front;
    for _turn in rt.forever() {
        if !front.busy() {
            return front;
        }
        front = serve_all(rt, alloc, front, book, gate);
    }
    unreachable!()
}

/// Serves what the front has, by one worker on this thread.
fn serve_all<G: Gate, B: Naming, N: Rings, R: Wait>(
    rt: &R,
    alloc: Global,
    front: Front<Carried<Display, B>, LaneToken<Display, B>, N>,
    book: &Book<Display, B>,
    gate: &G,
) -> Front<Carried<Display, B>, LaneToken<Display, B>, N> {
    let stop = AtomicBool::new(true);
    let lock = Mutex::new(front);
    serve(rt, alloc, &lock, book, gate, &stop);
    lock.into_inner()
}

/// Closes the book, whose clients have joined, the driver and the front, unless commands went back without being run. It waits
/// until the driver has all back.
pub fn close<B: Naming, N: Rings, R: Wait>(
    rt: &R,
    book: Book<Display, B>,
    root: Root<Display, B>,
    driver: Driver<B, N>,
    front: Front<Carried<Display, B>, LaneToken<Display, B>, N>,
) -> Result<Closed<B, N>, AllocError>
    requires clients { (script : _) × HaveAllJoined script root }
    requires still { IsStill front }
    ensures ended { IfOk result (λ closed. IsEnd root closed.history closed.frames.items) }
    ensures completed { IfOk result (λ closed. HaveCompleted closed.history closed.control closed.cursor) }
{
    if front.halted() {
        return Err(AllocError);
    }
    let mut root = root;
    let (tokens, control, cursor) = front.close();
    let (control, cursor) = hear(rt, &book, &mut root, driver, control, cursor)?;
    join_lanes(&book, &mut root, tokens);
    let (display, history) = book.close(root);
    Ok(Closed {
        history,
        frames: display.into_frames(),
        control,
        cursor,
    })
}

/// Has the root see the commands of all that went over both rings and came back, which is all that was completed. The device's
/// ends stay as they are.
fn hear<B: Naming, N: Rings, R: Wait>(
    rt: &R,
    book: &Book<Display, B>,
    root: &mut Root<Display, B>,
    driver: Driver<B, N>,
    control: DeviceEnd<Carried<Display, B>, ControlOf<N>>,
    cursor: DeviceEnd<Carried<Display, B>, CursorOf<N>>,
) -> Result<
    (
        DeviceEnd<Carried<Display, B>, ControlOf<N>>,
        DeviceEnd<Carried<Display, B>, CursorOf<N>>,
    ),
    AllocError,
>
    ensures root { HasHeard root.old root.new }
    ensures same { IfOk result (λ ends. (ends.0 ≡ control) × (ends.1 ≡ cursor)) }
    ensures asked { IfOk result (λ ends. AreAsked ends.0.completed root.new.seen × AreAsked ends.1.completed root.new.seen) }
{
    let (sent, pointed) = driver.close(rt, book, root)?;
    Ok((agreed(sent, control), agreed(pointed, cursor)))
}

/// The device's end of a ring as it is: all that was completed has come back, if all that was published has.
fn agreed<P: Tagged, Q: vg_ring::Naming>(
    driver: DriverEnd<P, Q>,
    device: DeviceEnd<P, Q>,
) -> DeviceEnd<P, Q>
    requires { length driver.reaped ≡ length driver.published }
    ensures same { result ≡ device }
    ensures back { result.completed ≡ driver.reaped }
{
    let mut driver = driver;
    let mut device = device;
    ends_agree(&mut driver, &mut device);
    device
}

/// Takes in the lanes.
fn join_lanes<B: Naming>(
    book: &Book<Display, B>,
    root: &mut Root<Display, B>,
    lanes: Vec<LaneToken<Display, B>>,
)
    ensures { HasTakenLanes root.old lanes.items root.new }
{
    for lane in lanes {
        root.join_lane(book, lane);
    }
}
