//! Publishing a request of a client.

ghost use Rattle.std.specs.Prelude.{◌≡◌, ◌-◌, ◌^◌, ◌<◌, ◌≤◌, false, None, length, IfOk, MatchResult};
ghost use Rattle.vg_chain.specs.Space.{most_request, most_room};
ghost use Rattle.vg_chain.specs.Made.{IsCount};
ghost use Rattle.vg_cargo.specs.Cargo.{IsLane};
ghost use Rattle.vg_driver.specs.Asks.{IsAsk, denied_for, queue_for, request_for};
ghost use Rattle.vg_driver.specs.Tickets.{Submitted};
ghost use Rattle.vg_driver.specs.OffersWithin.{IsNext, IsParcelOf, MayOffer};

use crate::ask::Ask;
use crate::half::Half;
use crate::ticket::Ticket;
use std::alloc::{AllocError, Global};
use std::snapshot::Snapshot;
use vg_book::{Book, ClientToken};
use vg_cargo::{Parcel, Tag};
use vg_history::Fence;
use vg_machine::{Display, Request};
use vg_ring::OfQueue;

/// The parcel of a request, for this head. The request's bytes move to it.
fn parcel_of(alloc: Global, head: u16, request: Request) -> Result<Parcel, AllocError>
    requires short { length request.bytes ≤ most_request }
    requires room { request.room ≤ most_room }
    requires lane { IsLane request.queue request.lane }
    requires count { IsCount request.shape }
    ensures { IfOk result (λ parcel. IsParcelOf request head parcel) }
{
    let Request {
        queue,
        lane,
        ordinal,
        room,
        shape,
        bytes,
    } = request;
    let tag = Tag { lane, ordinal };
    Parcel::new(alloc, queue, head, tag, shape, bytes.into_vec(), room)
}

/// Publishes a request. For want of memory nothing was published.
fn send<B: vg_book::Naming, Q: vg_ring::Naming + OfQueue>(
    half: &mut Half<Display, B, Q>,
    alloc: Global,
    book: &Book<Display, B>,
    token: &mut ClientToken<Display, B>,
    request: Request,
) -> Result<Ticket, AllocError>
    requires next { IsNext token.old.account.holds half.old request }
    requires used { token.old.account.used < 2 ^ 63 - 1 }
    ensures { MatchResult result (λ ticket. Submitted token.old (λ _. request) ticket token.new) (λ _. token.new ≡ token.old) }
{
    let asked = Snapshot::of(&request);
    let fence = Fence::new(request.lane, request.ordinal);
    let shape = request.shape;
    let parcel = parcel_of(alloc, half.next_head(), request)?;
    let (call, place) = half.send(book, token, shape, parcel, asked)?;
    Ok(Ticket { fence, call, place })
}

/// Publishes what is asked. None where there is no room for it now.
pub(crate) fn offer<B: vg_book::Naming, Q: vg_ring::Naming + OfQueue>(
    half: &mut Half<Display, B, Q>,
    alloc: Global,
    book: &Book<Display, B>,
    token: &mut ClientToken<Display, B>,
    ask: &Ask,
) -> Result<Option<Ticket>, AllocError>
    requires queue { Q.queue ≡ queue_for ask.now }
    requires ask { IsAsk ask.now }
    requires allowed { denied_for token.old.account.holds ask.now ≡ None }
    requires guest { token.old.account.holds.host ≡ false }
    ensures { MatchResult result (λ ticket. MayOffer token.old (request_for ask.now) ticket token.new) (λ _. token.new ≡ token.old) }
{
    half.reap_all(book);
    half.is_of_queue();
    if !half.is_ready(ask.needed()) || token.used() >= LAST_CALL {
        return Ok(None);
    }
    let ordinal = half.next_ordinal(ask.lane());
    let request = ask.request(alloc, ordinal)?;
    Ok(Some(send(half, alloc, book, token, request)?))
}

/// How many call numbers a client may have drawn before its last request.
const LAST_CALL: u64 = 9223372036854775807;
