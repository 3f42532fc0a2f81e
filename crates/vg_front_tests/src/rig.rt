//! Commands that go to a front over both rings, and what comes back.

ghost use Rattle.std.specs.Prelude.{◌≡◌, ℕ, IfOk, IfSome, length};
ghost use Rattle.vg_chain.specs.Made.{IsCount};
ghost use Rattle.vg_front.specs.Desks.{AreNew};
ghost use Rattle.vg_wire.specs.declared.request.Queue.TheVariants.{Control, Cursor};
ghost use Rattle.vg_cargo.specs.Cargo.{IsLane};
ghost use Rattle.vg_ring.specs.Making.{IsNewDevice};
ghost use Rattle.vg_front_tests.specs.Held.{IsHeld, count_in, lane_in};

use std::alloc::{AllocError, Global};
use std::marker::Model;
use vg_cargo::{Cargo, Tag};
use vg_chain::{Chain, ChainFault, Shape};
use vg_front::{Front, Loan, Work};
use vg_history::Turn;
use vg_notify::Sleeper;
use vg_ring::{ControlOf, CursorOf, DeviceEnd, DriverEnd, Naming, Rings};
use vg_ring_uses::{Ticket, answered, ticketed, unanswered};
use vg_wire::Queue;

/// A lane's token that runs nothing but counts.
#[derive(Drop)]
pub struct Token {
    pub lane: u32,
    pub count: u64,
}

impl Turn for Token {
    ghost lane_of = { λ t. t.lane };

    ghost count_of = { λ t. t.count };

    fn lane(&self) -> u32 {
        self.lane
    }

    fn count(&self) -> u64 {
        self.count
    }
}

/// The tokens of all lanes, which have run nothing.
fn tokens(alloc: Global) -> Result<Vec<Token>, AllocError>
    ensures { IfOk result (λ tokens. (length tokens.items ≡ 66) × AreNew lane_in count_in 0 tokens.items) }
{
    let mut tokens = Vec::with_capacity(alloc, 66)?;
    for lane in 0..66 {
        tokens.push(Token { lane, count: 0 })?;
    }
    Ok(tokens)
}

/// A front of two new rings, with a bell for each.
pub fn new_front<N: Rings>(
    alloc: Global,
    control: DeviceEnd<Ticket, ControlOf<N>>,
    cursor: DeviceEnd<Ticket, CursorOf<N>>,
    control_bell: Sleeper,
    cursor_bell: Sleeper,
) -> Result<Front<Ticket, Token, N>, AllocError>
    requires control { (size : ℕ) × IsNewDevice Control size control }
    requires cursor { (size : ℕ) × IsNewDevice Cursor size cursor }
{
    let tokens = tokens(alloc)?;
    Front::new(alloc, control, cursor, control_bell, cursor_bell, tokens)
}

/// A command of a lane goes onto a ring in this shape.
pub fn ask<N: Naming>(
    alloc: Global,
    driver: &mut DriverEnd<Ticket, N>,
    queue: Queue,
    lane: u32,
    shape: Shape,
) -> Result<bool, AllocError>
    requires count { IsCount shape }
    requires queue { driver.old.queue ≡ queue }
    requires lane { IsLane queue lane }
    ensures queue { driver.new.queue ≡ queue }
{
    if driver.published() > 1000000 || !driver.room(1) || !driver.room(shape.needed(3, 4)) {
        return Ok(false);
    }
    let tag = Tag {
        lane,
        ordinal: driver.next_ordinal(lane),
    };
    let request = [1u8, 2, 3].to_vec(alloc)?;
    let head = driver.next_head();
    let cargo = ticketed(alloc, queue, head, tag, shape, request, 4)?;
    Ok(driver.publish(shape, cargo) == head)
}

/// A command that a worker has, with the walk of its chain.
#[derive(Drop)]
pub struct Held<N: Rings> {
    token: Token,
    right: Loan<N>,
    walked: Result<Chain, ChainFault>,
    cargo: Cargo<Ticket>,
}

impl<N: Rings> Held<N> {
    /// The command's lane and ordinal.
    pub fn tag(&self) -> (u32, u64) {
        let Tag { lane, ordinal } = self.right.tag();
        (lane, ordinal)
    }
}

/// Steps until a command is given out, and walks its chain. None once nothing is left.
pub fn take<N: Rings>(
    alloc: Global,
    front: &mut Front<Ticket, Token, N>,
) -> Result<Option<Held<N>>, AllocError>
    ensures held { IfOk result (λ held. IfSome held (IsHeld front.old.control.halted)) }
    ensures halted { front.new.control.halted ≡ front.old.control.halted }
{
    for _turn in 0..100 {
        match front.step() {
            Work::Fetched => {}
            Work::Run {
                token,
                mut right,
                cargo,
            } => {
                let walked = front.chain(alloc, &mut right, &cargo)?;
                return Ok(Some(Held {
                    token,
                    right,
                    walked,
                    cargo,
                }));
            }
            Work::Idle => return Ok(None),
        }
    }
    Ok(None)
}

/// Runs a command and gives it back, with its lane as its response; or gives it back as it is where the front is halted.
pub fn give<N: Rings>(front: &mut Front<Ticket, Token, N>, held: Held<N>)
    requires { IsHeld front.old.control.halted held }
    ensures { front.new.control.halted ≡ front.old.control.halted }
{
    let Held {
        mut token,
        right,
        walked,
        cargo,
    } = held;
    let Tag { lane, ordinal } = cargo.tag();
    if front.halted() {
        front.finish(token, right, 0, unanswered(cargo));
        return;
    }
    token.count = ordinal;
    let (parcel, ticket) = cargo.apart();
    let (cargo, len) = answered(parcel, ticket, &walked, &[lane as u8]);
    front.finish(token, right, len, cargo);
}

/// The lane, the ordinal and the response of what comes back next.
pub fn back<N: Naming>(driver: &mut DriverEnd<Ticket, N>) -> Option<(u32, u64, Option<u8>)>
    ensures { driver.new.queue ≡ driver.old.queue }
{
    let reaped = driver.reap()?;
    let Tag { lane, ordinal } = reaped.cargo.tag();
    let response = reaped.cargo.response(reaped.len);
    Some((lane, ordinal, response.first().copied()))
}
