//! One queue of a device, as the clients share it under a lock.

ghost use Rattle.std.specs.Prelude.{◌≡◌, ℕ, ◌+◌, ◌-◌, ◌^◌, ◌<◌, ◌%◌, true, [], length, nat_le, IfOk, IfSome, MatchResult, OnOk};
ghost use Rattle.vg_cargo.specs.Cargo.{asked_of};
ghost use Rattle.vg_cargo.specs.Ends.{HasRoom};
ghost use Rattle.vg_cargo.specs.Entries.{lane_count};
ghost use Rattle.vg_ring.specs.Making.{IsNewDriver};
ghost use Rattle.vg_driver.specs.Halves.{AreBack, AreHeard, HasHeard, HasJoined, HasReaped, IsOf, IsOffered, IsSent, ReapsOne, Signals, top_of};

use crate::back::Back;
use crate::heard::Heard;
use crate::replies::Replies;
use crossbeam_utils::Backoff;
use std::alloc::{AllocError, Global};
use std::marker::Model;
use std::snapshot::Snapshot;
use std::sync::Wait;
use vg_book::{Book, Carried, ClientToken, Root};
use vg_cargo::{Parcel, Tag};
use vg_chain::Shape;
use vg_history::{Fence, Machine};
use vg_notify::Ringer;
use vg_ring::{DriverEnd, OfQueue, Reaped};

/// The most cargoes that a ring carries.
const MOST_PUBLISHED: u64 = 9223372036854775807;

/// The driver's end of a queue with the bell of its device, what came back and nobody has taken yet, and how far each lane has come.
#[derive(Drop)]
pub struct Half<M: Machine, B: vg_book::Naming, Q: vg_ring::Naming + OfQueue> {
    end: DriverEnd<Carried<M, B>, Q>,
    /// It is told of all that was published.
    bell: Ringer,
    replies: Replies<M, B>,
    heard: Vec<Heard<M, B>>,
}

impl<M: Machine, B: vg_book::Naming, Q: vg_ring::Naming + OfQueue> Model for Half<M, B, Q> {
    ghost use Rattle.std.specs.Prelude.{◌≡◌, length};
    ghost use Rattle.vg_cargo.specs.Ends.{DriverLists};
    ghost use Rattle.vg_driver.specs.Halves.{IsHalf};

    ghost Value = { DriverLists };

    ghost view = { λ h. h.end };

    ghost invariant = { λ h. IsHalf M.Machine Q.queue h.end h.heard.items × (h.bell.count ≡ length h.end.published) };
}

/// Each lane, of which nothing came back.
fn all_lanes<M: Machine, B: vg_book::Naming>(alloc: Global) -> Result<Vec<Heard<M, B>>, AllocError>
    ensures { IfOk result (λ heard. (length heard.items ≡ 66) × AreHeard [] heard.items) }
{
    let mut heard = Vec::with_capacity(alloc, 66)?;
    for lane in 0..66 {
        heard.push(Heard::new(lane))?;
    }
    Ok(heard)
}

impl<M: Machine, B: vg_book::Naming, Q: vg_ring::Naming + OfQueue> Half<M, B, Q> {
    /// A half over an end that has published nothing, and a bell that was told of nothing.
    pub(crate) fn new(
        alloc: Global,
        end: DriverEnd<Carried<M, B>, Q>,
        bell: Ringer,
    ) -> Result<Half<M, B, Q>, AllocError>
        requires end { (size : ℕ) × IsNewDriver Q.queue size end }
        requires bell { bell.count ≡ 0 }
        ensures { IfOk result (λ half. half ≡ end) }
    {
        Ok(Half {
            end,
            bell,
            replies: Replies::new(alloc),
            heard: all_lanes(alloc)?,
        })
    }

    /// Does nothing: it tells which queue it is.
    pub(crate) fn is_of_queue(&self)
        ensures { self.now.queue ≡ Q.queue }
    {
        let _ = &self.end;
    }

    /// Whether so many descriptors are free, and not as many cargoes were published as ever can be.
    pub(crate) fn is_ready(&self, descriptors: u16) -> bool
        ensures { result ≡ true → HasRoom self.now descriptors × (length self.now.published < 2 ^ 63 - 1) }
    {
        self.end.room(descriptors) && self.end.published() < MOST_PUBLISHED
    }

    /// The ordinal of the next cargo of a lane.
    pub(crate) fn next_ordinal(&self, lane: u32) -> u64
        requires { lane < 66 }
        ensures { result ≡ lane_count lane self.now.published + 1 }
    {
        self.end.next_ordinal(lane)
    }

    /// The place of the head descriptor of the next cargo.
    pub(crate) fn next_head(&self) -> u16
        requires { HasRoom self.now 1 }
        ensures { result ≡ self.now.next }
    {
        self.end.next_head()
    }

    /// Publishes the parcel of this request with a pass for it, tells the bell, and gives the client's number for it and the place of its
    /// reply. For want of memory nothing was published.
    pub(crate) fn send(
        &mut self,
        book: &Book<M, B>,
        token: &mut ClientToken<M, B>,
        shape: Shape,
        parcel: Parcel,
        request: Snapshot<M::Request>,
    ) -> Result<(u64, usize), AllocError>
        requires tag { M.tagged request.value ≡ (parcel.lane, parcel.ordinal) }
        requires asked { M.asks request.value ≡ asked_of parcel }
        requires allowed { M.allows token.old.account.holds request.value ≡ true }
        requires used { token.old.account.used < 2 ^ 63 - 1 }
        requires parcel { IsOffered self.old shape parcel }
        ensures { MatchResult result (λ sent. IsSent M.Machine token.old request.value token.new sent.0) (λ _. token.new ≡ token.old) }
    {
        let place = self.replies.keep_place(self.end.next_head())?;
        let Tag { lane, ordinal } = parcel.tag();
        let pass = token.pass_of(book, request, (lane, ordinal));
        let call = pass.call();
        self.end.publish(shape, parcel.load(Carried::Wanted(pass)));
        let count = self.end.published();
        self.bell.published(count);
        Ok((call, place))
    }

    /// Takes the next reply from the ring. False where there is none.
    fn reap(&mut self, book: &Book<M, B>) -> bool
        ensures { ReapsOne self.old self.new result }
    {
        match self.end.reap() {
            None => false,
            Some(Reaped { head, len, cargo }) => {
                let Tag { lane, ordinal } = cargo.tag();
                let mut reply = Back::of(cargo, len);
                reply.tell(book, &mut self.heard[lane as usize], ordinal);
                self.replies.put(head, reply);
                true
            }
        }
    }

    /// Takes all replies from the ring.
    pub(crate) fn reap_all(&mut self, book: &Book<M, B>)
        ensures reaped { HasReaped self.old self.new }
        ensures seen { self.new.seen ≡ length self.new.reaped % 65536 }
    {
        while self.reap(book) {}
    }

    /// Takes all replies from the ring, and the reply of a client's call out of its place, if it came.
    pub(crate) fn answer(
        &mut self,
        book: &Book<M, B>,
        place: usize,
        client: u32,
        call: u64,
    ) -> Option<Back<M, B>>
        ensures { IfSome result (IsOf client call) }
    {
        self.reap_all(book);
        self.replies.take(place, client, call)
    }

    /// Whether the command of a fence of this queue is among what was taken from the ring.
    fn signal(
        &mut self,
        book: &Book<M, B>,
        token: &mut ClientToken<M, B>,
        fence: &Fence,
    ) -> Result<bool, AllocError>
        ensures told { MatchResult result (λ b. Signals M.Machine token.old fence.now b token.new) (λ _. token.new ≡ token.old) }
        ensures exactly { IfOk result (λ b. b ≡ nat_le fence.now.ordinal (top_of fence.now.lane self.old.reaped)) }
        ensures same { self.new ≡ self.old }
    {
        let lane = fence.lane();
        self.heard[lane as usize].signal(book, token, fence)
    }

    /// Takes all replies from the ring, and answers whether the command of a fence of this queue has come back: then the client has
    /// seen all commands of its lane up to it. It answers want of memory where something of the lane up to there came back without
    /// having been run.
    pub fn signalled(
        &mut self,
        book: &Book<M, B>,
        token: &mut ClientToken<M, B>,
        fence: &Fence,
    ) -> Result<bool, AllocError>
        ensures told { MatchResult result (λ b. Signals M.Machine token.old fence.now b token.new) (λ _. token.new ≡ token.old) }
        ensures exactly { IfOk result (λ b. b ≡ nat_le fence.now.ordinal (top_of fence.now.lane self.new.reaped)) }
        ensures reaped { HasReaped self.old self.new }
        ensures seen { self.new.seen ≡ length self.new.reaped % 65536 }
    {
        self.reap_all(book);
        self.signal(book, token, fence)
    }

    /// Takes replies from the ring until all that was published has come back.
    fn reap_rest<R: Wait>(&mut self, rt: &R, book: &Book<M, B>)
        ensures { length self.new.reaped ≡ length self.new.published }
    {
        let backoff = Backoff::new();
        for _ in rt.forever() {
            self.reap_all(book);
            if self.end.reaped() == self.end.published() {
                return;
            }
            backoff.snooze();
        }
        unreachable!()
    }

    /// Waits until all that was published has come back, has the root see the commands of it, and gives the end. It answers want
    /// of memory where a command came back unrun.
    pub(crate) fn close<R: Wait>(
        self,
        rt: &R,
        book: &Book<M, B>,
        root: &mut Root<M, B>,
    ) -> Result<DriverEnd<Carried<M, B>, Q>, AllocError>
        ensures root { HasHeard root.old root.new }
        ensures back { IfOk result (λ end. AreBack M.Machine end root.new.seen) }
    {
        let mut half = self;
        half.reap_rest(rt, book);
        let Half { end, heard, .. } = half;
        join_lanes(book, root, heard)?;
        Ok(end)
    }
}

/// The root sees what the lanes' notes have seen. It answers want of memory where something of a lane came back unrun.
fn join_lanes<M: Machine, B: vg_book::Naming>(
    book: &Book<M, B>,
    root: &mut Root<M, B>,
    heard: Vec<Heard<M, B>>,
) -> Result<(), AllocError>
    ensures root { HasHeard root.old root.new }
    ensures joined { OnOk result (HasJoined root.old heard.items root.new) }
{
    for lane in heard {
        lane.join(book, root)?;
    }
    Ok(())
}
