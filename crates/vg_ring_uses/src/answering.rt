//! The device's thread: it fetches cargoes and gives them back.

ghost use Rattle.std.specs.Prelude.{◌≡◌, [], false, true, length, IfOk};
ghost use Rattle.vg_ring_uses.specs.declared.answering.Look.TheVariants.{Unread};
ghost use Rattle.vg_cargo.specs.Walked.{IsWalkOf};
ghost use Rattle.vg_ring_uses.specs.Carried.{HasAnswered, HasSeenAll, IsRespondedTo, MayAnswer, is_unread};

use crate::asking::pause;
use crate::ticket::{Ticket, answered, unanswered};
use crossbeam_utils::Backoff;
use std::alloc::{AllocError, Global};
use std::marker::{Model, Sync};
use std::sync::Wait;
use std::sync::atomic::{AtomicBool, Ordering};
use std::thread::Threads;
use vg_cargo::{Cargo, Opening};
use vg_chain::{Chain, ChainFault};
use vg_jobs::Job;
use vg_ring::{DeviceEnd, Fetched, Naming};

/// What a look for a cargo came to.
#[derive(Clone, Copy, PartialEq, Eq)]
pub enum Look {
    /// One was answered.
    Answered,
    /// One went back with nothing in its room, since there was no memory to read it.
    Unread,
    /// There was none.
    Nothing,
}

/// A cargo on its way back, and how long its response is.
#[derive(Drop)]
struct Back {
    cargo: Cargo<Ticket>,
    len: u32,
    look: Look,
}

/// A cargo on its way back, with what was read through its chain in its room, or nothing for want of memory.
fn respond(
    alloc: Global,
    cargo: Cargo<Ticket>,
    walked: Result<Result<Chain, ChainFault>, AllocError>,
) -> Back
    requires wanted { cargo.pass.wanted ≡ true }
    requires walk { IfOk walked (λ walked. IsWalkOf cargo.parcel walked) }
    ensures parcel { result.cargo.parcel ≡ record cargo.parcel { response = result.cargo.parcel.response } }
    ensures response { IsRespondedTo cargo.parcel result.cargo.parcel.response result.look }
    ensures len { length result.cargo.parcel.response ≡ result.len }
    ensures back { result.cargo.pass.wanted ≡ false }
{
    let Ok(walked) = walked else {
        return unread(cargo);
    };
    match cargo.open(alloc, &walked) {
        Ok(
            Opening {
                command,
                parcel,
                pass,
            },
        ) => {
            let (cargo, len) = answered(parcel, pass, &walked, command.bytes.as_slice());
            Back {
                cargo,
                len,
                look: Look::Answered,
            }
        }
        Err(cargo) => unread(cargo),
    }
}

/// A cargo on its way back, with nothing in its room.
fn unread(cargo: Cargo<Ticket>) -> Back
    ensures parcel { result.cargo.parcel ≡ record cargo.parcel { response = [] } }
    ensures look { result.look ≡ Unread }
    ensures len { result.len ≡ 0 }
    ensures back { result.cargo.pass.wanted ≡ false }
{
    Back {
        cargo: unanswered(cargo),
        len: 0,
        look: Look::Unread,
    }
}

/// Fetches a cargo, reads what it asks for through its chain, and gives it back with that as its response.
fn answer_next<N: Naming>(alloc: Global, device: &mut DeviceEnd<Ticket, N>) -> Look
    ensures { MayAnswer device.old device.new result }
{
    let Some(fetched) = device.fetch() else {
        return Look::Nothing;
    };
    let Fetched { head, cargo } = fetched;
    let mut right = device.lend(head);
    let walked = device.chain(alloc, &mut right, &cargo);
    device.take_in(right);
    let Back { cargo, len, look } = respond(alloc, cargo, walked);
    device.complete(head, len, cargo);
    look
}

/// Whether a cargo went back unread, once a look came to this.
fn unread_by(unread: bool, look: Look) -> bool
    ensures { result ≡ is_unread unread look }
{
    match look {
        Look::Unread => true,
        _ => unread,
    }
}

/// Answers all cargoes, until the flag is up and there are no more. For want of memory some go back with nothing in their
/// rooms, and that is told at the end.
pub fn answer<N: Naming, R: Wait>(
    rt: &R,
    alloc: Global,
    device: DeviceEnd<Ticket, N>,
    stop: &AtomicBool,
) -> Result<DeviceEnd<Ticket, N>, AllocError>
    requires { (device.fetched ≡ []) × (device.completed ≡ []) }
    ensures answered { IfOk result HasAnswered }
    ensures seen { IfOk result HasSeenAll }
{
    let mut device = device;
    let mut unread = false;
    let backoff = Backoff::new();
    for _turn in rt.forever() {
        let stopped = stop.load(Ordering::SeqCst);
        let look = answer_next(alloc, &mut device);
        unread = unread_by(unread, look);
        if stopped && look == Look::Nothing {
            return if unread { Err(AllocError) } else { Ok(device) };
        }
        pause(&backoff, look != Look::Nothing);
    }
    unreachable!()
}

/// A device's end that is to answer all cargoes, on a thread.
#[derive(Drop)]
pub(crate) struct Answering<'a, N: Naming> {
    pub alloc: Global,
    pub device: DeviceEnd<Ticket, N>,
    pub stop: &'a AtomicBool,
}

impl<'a, N: Naming> Job<Result<DeviceEnd<Ticket, N>, AllocError>> for Answering<'a, N> {
    ghost use Rattle.std.specs.Prelude.{◌≡◌, [], IfOk};
    ghost use Rattle.vg_ring_uses.specs.Carried.{HasAnswered};

    ghost is_ready = { λ job. (job.device.fetched ≡ []) × (job.device.completed ≡ []) };

    ghost gives = { λ job result. IfOk result HasAnswered };

    fn run<R: Threads + Wait + Sync>(self, rt: &R) -> Result<DeviceEnd<Ticket, N>, AllocError> {
        answer(rt, self.alloc, self.device, self.stop)
    }
}
