//! Both queues of a device, as its clients share them.

ghost use Rattle.std.specs.Prelude.{◌≡◌, ℕ, true, false, None, IfOk, IfSome, MatchResult};
ghost use Rattle.vg_book.specs.Tokens.{Watched};
ghost use Rattle.vg_wire.specs.declared.request.Queue.TheVariants as queues;
ghost use Rattle.vg_ring.specs.Making.{IsNewDriver};
ghost use Rattle.vg_machine.specs.Written.{read_by};
ghost use Rattle.vg_machine.specs.Replay.{display};
ghost use Rattle.vg_driver.specs.Asks.{IsAsk, denied_for, queue_for, request_for};
ghost use Rattle.vg_driver.specs.Halves.{AreBack, HasHeard, IsOf, Signals};
ghost use Rattle.vg_driver.specs.OffersWithin.{MayOffer};
ghost use Rattle.vg_driver.specs.Tickets.{Awaited, Finished, IsOut, IsTold, Spent, Submitted};

use crate::ask::Ask;
use crate::back::Back;
use crate::half::Half;
use crate::offer::offer;
use crate::ticket::{Answer, Ticket};
use crossbeam_utils::Backoff;
use std::alloc::{AllocError, Global};
use std::sync::{Mutex, Wait};
use vg_book::{Book, Carried, ClientToken, Root};
use vg_chain::Shape;
use vg_client_holds::Act;
use vg_history::Fence;
use vg_list::Seq;
use vg_machine::{Display, Reply};
use vg_notify::Ringer;
use vg_ring::{ControlOf, CursorOf, DriverEnd, OfQueue, Rings};
use vg_wire::Queue;

/// The driver's ends of a device's two rings, each under a lock.
#[derive(Drop)]
pub struct Driver<B: vg_book::Naming, N: Rings> {
    control: Mutex<Half<Display, B, ControlOf<N>>>,
    cursor: Mutex<Half<Display, B, CursorOf<N>>>,
}

/// Submits what is asked on its queue.
fn submit_on<R: Wait, B: vg_book::Naming, Q: vg_ring::Naming + OfQueue>(
    rt: &R,
    half: &Mutex<Half<Display, B, Q>>,
    alloc: Global,
    book: &Book<Display, B>,
    token: &mut ClientToken<Display, B>,
    ask: &Ask,
) -> Result<Ticket, AllocError>
    requires queue { Q.queue ≡ queue_for ask.now }
    requires ask { IsAsk ask.now }
    requires allowed { denied_for token.old.account.holds ask.now ≡ None }
    requires guest { token.old.account.holds.host ≡ false }
    ensures { MatchResult result (λ ticket. Submitted token.old (request_for ask.now) ticket token.new) (λ _. token.new ≡ token.old) }
{
    let backoff = Backoff::new();
    for _ in rt.forever() {
        let offered = offer(&mut half.lock(rt), alloc, book, token, ask)?;
        if let Some(ticket) = offered {
            return Ok(ticket);
        }
        backoff.snooze();
    }
    unreachable!()
}

/// What came back of a client's call. None where it hasn't come, or somebody else has the lock: a client that looks for its reply
/// doesn't sleep on the lock, so nobody has to wake it.
fn look<B: vg_book::Naming, Q: vg_ring::Naming + OfQueue>(
    half: &Mutex<Half<Display, B, Q>>,
    book: &Book<Display, B>,
    client: u32,
    ticket: &Ticket,
) -> Option<Back<Display, B>>
    ensures { IfSome result (IsOf client ticket.now.call) }
{
    match half.try_lock() {
        Some(half) => {
            let mut half = half;
            half.answer(book, ticket.place, client, ticket.call)
        }
        None => None,
    }
}

/// Waits for what comes back of a client's call.
fn wait_for<R: Wait, B: vg_book::Naming, Q: vg_ring::Naming + OfQueue>(
    rt: &R,
    half: &Mutex<Half<Display, B, Q>>,
    book: &Book<Display, B>,
    client: u32,
    ticket: &Ticket,
) -> Back<Display, B>
    ensures { IsOf client ticket.now.call result }
{
    let backoff = Backoff::new();
    for _ in rt.forever() {
        if let Some(back) = look(half, book, client, ticket) {
            return back;
        }
        backoff.snooze();
    }
    unreachable!()
}

/// Whether the command of a fence of the queue has come back. False where somebody else has the lock, too.
fn look_for<B: vg_book::Naming, Q: vg_ring::Naming + OfQueue>(
    half: &Mutex<Half<Display, B, Q>>,
    book: &Book<Display, B>,
    token: &mut ClientToken<Display, B>,
    fence: &Fence,
) -> Result<bool, AllocError>
    ensures { MatchResult result (λ b. Signals display token.old fence.now b token.new) (λ _. token.new ≡ token.old) }
{
    match half.try_lock() {
        Some(half) => {
            let mut half = half;
            half.signalled(book, token, fence)
        }
        None => Ok(false),
    }
}

/// Waits until the command of a fence of the queue has come back.
fn wait_on<R: Wait, B: vg_book::Naming, Q: vg_ring::Naming + OfQueue>(
    rt: &R,
    half: &Mutex<Half<Display, B, Q>>,
    book: &Book<Display, B>,
    token: &mut ClientToken<Display, B>,
    fence: &Fence,
) -> Result<(), AllocError>
    ensures { MatchResult result (λ _. Signals display token.old fence.now true token.new) (λ _. token.new ≡ token.old) }
{
    let backoff = Backoff::new();
    for _ in rt.forever() {
        if look_for(half, book, token, fence)? {
            return Ok(());
        }
        backoff.snooze();
    }
    unreachable!()
}

/// Adds the act that tells of a fence that the client has waited for, and gives the number of its entry.
fn tell<R: Wait, B: vg_book::Naming>(
    rt: &R,
    alloc: Global,
    book: &Book<Display, B>,
    token: &mut ClientToken<Display, B>,
    fence: &Fence,
) -> Result<u64, AllocError>
    ensures { MatchResult result (λ entry. IsTold token.old fence.now entry token.new) (λ _. Watched display token.old token.new) }
{
    let act = Act::Await {
        lane: fence.lane(),
        ordinal: fence.ordinal(),
    };
    let (entry, _) = token.act(rt, alloc, book, act)?;
    Ok(entry)
}

/// The client looks at what it has seen, which is a history.
fn look_back<B: vg_book::Naming>(book: &Book<Display, B>, token: &mut ClientToken<Display, B>)
    ensures { Watched display token.old token.new }
{
    let note = token.note(book);
    token.meet(book, note);
}

/// The reply to a request of this shape, by what is in the room for it.
fn reply_in(shape: Shape, bytes: Vec<u8>) -> Reply
    ensures { result ≡ read_by shape bytes.items }
{
    match shape {
        Shape::Bad { fault } => Reply::Fault { fault },
        _ => Reply::Response {
            bytes: Seq::from_vec(bytes),
        },
    }
}

/// Takes back what came of a client's call.
fn settle<B: vg_book::Naming>(
    book: &Book<Display, B>,
    token: &mut ClientToken<Display, B>,
    ticket: Ticket,
    back: Back<Display, B>,
) -> Result<Answer, AllocError>
    requires out { IsOut token.old.account ticket }
    requires of { IsOf token.old.account.number ticket.call back }
    ensures { MatchResult result (λ answer. Finished token.old ticket answer token.new) (λ _. Spent token.old ticket token.new) }
{
    let (pass, shape, bytes) = back.apart();
    match pass {
        Carried::Done(done) => {
            done.can_be_read();
            let entry = token.take_back(book, done);
            Ok(Answer {
                entry,
                reply: reply_in(shape, bytes),
            })
        }
        Carried::Wanted(pass) | Carried::Unrun(pass) => {
            token.take_unrun(book, pass);
            Err(AllocError)
        }
    }
}

impl<B: vg_book::Naming, N: Rings> Driver<B, N> {
    /// A driver over two ends that have published nothing, with a bell for each, by which it kicks who serves that ring and dozes.
    pub fn new(
        alloc: Global,
        control: DriverEnd<Carried<Display, B>, ControlOf<N>>,
        cursor: DriverEnd<Carried<Display, B>, CursorOf<N>>,
        control_bell: Ringer,
        cursor_bell: Ringer,
    ) -> Result<Driver<B, N>, AllocError>
        requires control { (size : ℕ) × IsNewDriver queues.Control size control }
        requires cursor { (size : ℕ) × IsNewDriver queues.Cursor size cursor }
        requires bells { (control_bell.count ≡ 0) × (cursor_bell.count ≡ 0) }
    {
        let control = Half::new(alloc, control, control_bell)?;
        let cursor = Half::new(alloc, cursor, cursor_bell)?;
        Ok(Driver {
            control: Mutex::new(control),
            cursor: Mutex::new(cursor),
        })
    }

    /// The control queue.
    pub fn control(&self) -> &Mutex<Half<Display, B, ControlOf<N>>> {
        &self.control
    }

    /// The cursor queue.
    pub fn cursor(&self) -> &Mutex<Half<Display, B, CursorOf<N>>> {
        &self.cursor
    }

    /// Submits what a client asks. It waits for its queue's lock, and for free descriptors. For want of memory nothing was
    /// published.
    pub fn submit<R: Wait>(
        &self,
        rt: &R,
        alloc: Global,
        book: &Book<Display, B>,
        token: &mut ClientToken<Display, B>,
        ask: &Ask,
    ) -> Result<Ticket, AllocError>
        requires ask { IsAsk ask.now }
        requires allowed { denied_for token.old.account.holds ask.now ≡ None }
        requires guest { token.old.account.holds.host ≡ false }
        ensures { MatchResult result (λ ticket. Submitted token.old (request_for ask.now) ticket token.new) (λ _. token.new ≡ token.old) }
    {
        match ask.queue() {
            Queue::Control => submit_on(rt, &self.control, alloc, book, token, ask),
            Queue::Cursor => submit_on(rt, &self.cursor, alloc, book, token, ask),
        }
    }

    /// Waits for a command that this client submitted and hasn't taken back, and takes it back with its reply. It answers want
    /// of memory where the command came back without having been run; then too nothing of it is outstanding.
    pub fn finish<R: Wait>(
        &self,
        rt: &R,
        book: &Book<Display, B>,
        token: &mut ClientToken<Display, B>,
        ticket: Ticket,
    ) -> Result<Answer, AllocError>
        requires { IsOut token.old.account ticket }
        ensures { MatchResult result (λ answer. Finished token.old ticket answer token.new) (λ _. Spent token.old ticket token.new) }
    {
        let client = token.number();
        let back = if ticket.fence.lane() == 65 {
            wait_for(rt, &self.cursor, book, client, &ticket)
        } else {
            wait_for(rt, &self.control, book, client, &ticket)
        };
        settle(book, token, ticket, back)
    }

    /// Waits on the queue of a fence until its command has come back.
    fn meet<R: Wait>(
        &self,
        rt: &R,
        book: &Book<Display, B>,
        token: &mut ClientToken<Display, B>,
        fence: &Fence,
    ) -> Result<(), AllocError>
        ensures { MatchResult result (λ _. Signals display token.old fence.now true token.new) (λ _. token.new ≡ token.old) }
    {
        if fence.lane() == 65 {
            wait_on(rt, &self.cursor, book, token, fence)
        } else {
            wait_on(rt, &self.control, book, token, fence)
        }
    }

    /// Waits for a fence, until it is signalled: then the client has seen all commands of its lane up to it. Then it adds the act
    /// that tells so, and gives the number of its entry in the history, from 1. It answers want of memory where a command of the
    /// lane up to there came back without having been run.
    pub fn wait<R: Wait>(
        &self,
        rt: &R,
        alloc: Global,
        book: &Book<Display, B>,
        token: &mut ClientToken<Display, B>,
        fence: &Fence,
    ) -> Result<u64, AllocError>
        ensures { MatchResult result (λ entry. Awaited token.old fence.now entry token.new) (λ _. Watched display token.old token.new) }
    {
        match self.meet(rt, book, token, fence) {
            Ok(()) => tell(rt, alloc, book, token, fence),
            Err(error) => {
                look_back(book, token);
                Err(error)
            }
        }
    }

    /// Waits until all that was published has come back, has the root see the commands of it, and gives both ends. It answers
    /// want of memory where a command came back unrun.
    pub fn close<R: Wait>(
        self,
        rt: &R,
        book: &Book<Display, B>,
        root: &mut Root<Display, B>,
    ) -> Result<
        (
            DriverEnd<Carried<Display, B>, ControlOf<N>>,
            DriverEnd<Carried<Display, B>, CursorOf<N>>,
        ),
        AllocError,
    >
        ensures root { HasHeard root.old root.new }
        ensures back { IfOk result (λ ends. AreBack display ends.0 root.new.seen × AreBack display ends.1 root.new.seen) }
    {
        let Driver { control, cursor } = self;
        let control = control.into_inner().close(rt, book, root)?;
        let cursor = cursor.into_inner().close(rt, book, root)?;
        Ok((control, cursor))
    }
}
