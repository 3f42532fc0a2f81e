//! A pass that stands for no machine's.

ghost use Rattle.std.specs.Prelude.{◌≡◌, ◌≤◌, None, true, false, [], length, take, min, IfOk};
ghost use Rattle.vg_chain.specs.Space.{most_request, most_room};
ghost use Rattle.vg_chain.specs.Made.{IsCount};
ghost use Rattle.vg_cargo.specs.Cargo.{IsLane, asked_of};
ghost use Rattle.vg_cargo.specs.Walked.{IsWalkOf};
ghost use Rattle.vg_ring_uses.specs.Carried.{written};

use std::alloc::{AllocError, Global};
use std::marker::Model;
use std::snapshot::Snapshot;
use vg_cargo::{Cargo, Opened, Parcel, Tag};
use vg_chain::{Asked, Chain, ChainFault, Shape};
use vg_history::Tagged;
use vg_list::Seq;
use vg_wire::Queue;

/// A pass that says its tag itself, and tells nothing of its response.
#[derive(Drop)]
pub struct Ticket {
    pub lane: u32,
    pub ordinal: u64,
    pub wanted: bool,
    asked: Snapshot<Asked>,
}

impl Tagged for Ticket {
    ghost use Rattle.std.specs.Prelude.{None};

    ghost tagged = { λ t. (t.lane, t.ordinal) };

    ghost is_wanted = { λ t. t.wanted };

    ghost asks = { λ t. t.asked.value };

    ghost told = { λ t. None };

    fn tag(&self) -> (u32, u64) {
        (self.lane, self.ordinal)
    }

    fn wanted(&self) -> bool {
        self.wanted
    }
}

impl Ticket {
    /// The ticket on its way back.
    fn back(self) -> Ticket
        ensures { result ≡ record self { wanted = false } }
    {
        Ticket {
            wanted: false,
            ..self
        }
    }
}

/// A cargo of this request, with a ticket that is wanted.
pub fn ticketed(
    alloc: Global,
    queue: Queue,
    head: u16,
    tag: Tag,
    shape: Shape,
    request: Vec<u8>,
    room: u32,
) -> Result<Cargo<Ticket>, AllocError>
    requires request { length request.items ≤ most_request }
    requires room { room ≤ most_room }
    requires lane { IsLane queue tag.lane }
    requires count { IsCount shape }
    ensures parcel { IfOk result (λ c. c.parcel ≡ record { queue = queue; head = head; lane = tag.lane; ordinal = tag.ordinal; shape = shape; request = request.items; room = room; tables = c.parcel.tables; response = [] }) }
    ensures wanted { IfOk result (λ c. c.pass.wanted ≡ true) }
{
    let asked = Asked {
        queue,
        bytes: Seq::from_vec(request),
        room,
        shape,
    };
    let ticket = Ticket {
        lane: tag.lane,
        ordinal: tag.ordinal,
        wanted: true,
        asked: Snapshot::of(&asked),
    };
    let request = asked.bytes.into_vec();
    let parcel = Parcel::new(alloc, queue, head, tag, shape, request, room)?;
    Ok(parcel.load(ticket))
}

/// A parcel that was opened and its ticket, on their way back, with as many of these bytes in the room as there is room for, and none
/// where its chain is bad; and how many they are.
pub fn answered(
    parcel: Opened,
    ticket: Ticket,
    walked: &Result<Chain, ChainFault>,
    bytes: &[u8],
) -> (Cargo<Ticket>, u32)
    requires tag { ⟦<Ticket as Tagged>⟧.tagged ticket ≡ (parcel.lane, parcel.ordinal) }
    requires asked { ⟦<Ticket as Tagged>⟧.asks ticket ≡ asked_of parcel }
    requires walk { IsWalkOf parcel walked.now }
    ensures parcel { result.0.parcel ≡ record parcel { response = written walked.now parcel.room bytes.now } }
    ensures len { length result.0.parcel.response ≡ result.1 }
    ensures back { result.0.pass.wanted ≡ false }
{
    let mut parcel = parcel;
    let len = match walked {
        Ok(chain) => parcel.fill_by(chain, bytes),
        Err(_) => {
            parcel.clear();
            0
        }
    };
    (parcel.load(ticket.back()), len)
}

/// The cargo on its way back, with nothing in its room.
pub fn unanswered(cargo: Cargo<Ticket>) -> Cargo<Ticket>
    ensures parcel { result.parcel ≡ record cargo.parcel { response = [] } }
    ensures back { result.pass.wanted ≡ false }
{
    let (parcel, ticket) = cargo.apart();
    let mut parcel = parcel;
    parcel.clear();
    parcel.load(ticket.back())
}
