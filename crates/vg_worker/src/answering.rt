//! A command is read through its chain and run on its lane, and its response written through the chain.

ghost use Rattle.std.specs.Prelude.{◌≡◌, ◌+◌, true, false, [], None, length};
ghost use Rattle.vg_chain.specs.Asks.{asked};
ghost use Rattle.vg_cargo.specs.Cargo.{asked_of};
ghost use Rattle.vg_cargo.specs.Walked.{IsWalkOf};
ghost use Rattle.vg_machine.specs.Written.{asks_of, read_by, written_in};
ghost use Rattle.vg_worker.specs.Answers.{Answers, ComesBack, turned};

use std::alloc::Global;
use std::sync::Wait;
use vg_book::{Book, Carried, DonePass, LaneToken, Naming, Pass};
use vg_cargo::{Cargo, Command, Opened, Opening};
use vg_chain::{Chain, ChainFault};
use vg_history::{Machine, Tagged};
use vg_list::Seq;
use vg_machine::{Display, Reply, Request};

/// A cargo on its way back.
#[derive(Drop)]
pub(crate) struct Back<B: Naming> {
    pub cargo: Cargo<Carried<Display, B>>,
    /// How many bytes its response has.
    pub len: u32,
    /// Whether its command was run.
    pub ran: bool,
}

/// Runs a command on its lane, as its request is read through its chain. Its cargo comes back with the reply's bytes, as many as
/// there is room for, and none where the chain is a fault. It waits for the turn of the book. For want of memory the command
/// comes back unrun, with no bytes.
pub fn answer<B: Naming, R: Wait>(
    rt: &R,
    alloc: Global,
    book: &Book<Display, B>,
    token: &mut LaneToken<Display, B>,
    chain: &Result<Chain, ChainFault>,
    cargo: Cargo<Carried<Display, B>>,
) -> Cargo<Carried<Display, B>>
    requires wanted { ⟦<Carried<Display, B> as Tagged>⟧.is_wanted cargo.pass ≡ true }
    requires turn { (cargo.parcel.lane ≡ token.old.lane) × (cargo.parcel.ordinal ≡ token.old.count + 1) }
    requires walk { IsWalkOf cargo.parcel chain.now }
    ensures answers { Answers token.old cargo token.new result }
    ensures back { ⟦<Carried<Display, B> as Tagged>⟧.is_wanted result.pass ≡ false }
{
    let Back { cargo, .. } = answer_measured(rt, alloc, book, token, chain, cargo);
    cargo
}

/// As `answer`, with the length of the response, and whether the command was run.
pub(crate) fn answer_measured<B: Naming, R: Wait>(
    rt: &R,
    alloc: Global,
    book: &Book<Display, B>,
    token: &mut LaneToken<Display, B>,
    chain: &Result<Chain, ChainFault>,
    cargo: Cargo<Carried<Display, B>>,
) -> Back<B>
    requires wanted { ⟦<Carried<Display, B> as Tagged>⟧.is_wanted cargo.pass ≡ true }
    requires turn { (cargo.parcel.lane ≡ token.old.lane) × (cargo.parcel.ordinal ≡ token.old.count + 1) }
    requires walk { IsWalkOf cargo.parcel chain.now }
    ensures back { ComesBack token.old cargo token.new result.cargo result.ran }
    ensures len { length result.cargo.parcel.response ≡ result.len }
{
    match cargo.open(alloc, chain) {
        Ok(opening) => run_opened(rt, alloc, book, token, chain, opening),
        Err(cargo) => Back {
            cargo: unrun(cargo),
            len: 0,
            ran: false,
        },
    }
}

/// Runs a command that was read on its lane, and puts the response and its pass into its parcel.
fn run_opened<B: Naming, R: Wait>(
    rt: &R,
    alloc: Global,
    book: &Book<Display, B>,
    token: &mut LaneToken<Display, B>,
    chain: &Result<Chain, ChainFault>,
    opening: Opening<Carried<Display, B>>,
) -> Back<B>
    requires wanted { ⟦<Carried<Display, B> as Tagged>⟧.is_wanted opening.pass ≡ true }
    requires tag { ⟦<Carried<Display, B> as Tagged>⟧.tagged opening.pass ≡ (opening.parcel.lane, opening.parcel.ordinal) }
    requires turn { (opening.parcel.lane ≡ token.old.lane) × (opening.parcel.ordinal ≡ token.old.count + 1) }
    requires asked { ⟦<Carried<Display, B> as Tagged>⟧.asks opening.pass ≡ asked_of opening.parcel }
    requires read { ⟦<Carried<Display, B> as Tagged>⟧.asks opening.pass ≡ asked opening.command.queue opening.command.bytes.items opening.command.room opening.command.shape }
    requires walk { IsWalkOf opening.parcel chain.now }
    ensures back { ComesBack token.old (record { parcel = opening.parcel; pass = opening.pass }) token.new result.cargo result.ran }
    ensures len { length result.cargo.parcel.response ≡ result.len }
{
    let Opening {
        command,
        parcel,
        pass,
    } = opening;
    let Carried::Wanted(pass) = pass else {
        unreachable!();
    };
    let mut parcel = parcel;
    let request = request_of(&pass, command);
    match token.run(rt, alloc, book, pass, request) {
        Ok((done, reply)) => {
            let len = write(&mut parcel, chain, &done, &reply);
            Back {
                cargo: parcel.load(Carried::Done(done)),
                len,
                ran: true,
            }
        }
        Err(pass) => {
            parcel.clear();
            Back {
                cargo: parcel.load(Carried::Unrun(pass)),
                len: 0,
                ran: false,
            }
        }
    }
}

/// The request that was read for a pass.
fn request_of<B: Naming>(pass: &Pass<Display, B>, command: Command) -> Request
    requires { ⟦<Display as Machine>⟧.asks pass.now.order.request ≡ asked command.queue command.bytes.items command.room command.shape }
    ensures { result ≡ pass.now.order.request }
{
    let (lane, ordinal) = pass.tag();
    let Command {
        queue,
        bytes,
        room,
        shape,
    } = command;
    Request {
        queue,
        lane,
        ordinal,
        room,
        shape,
        bytes: Seq::from_vec(bytes),
    }
}

/// Writes the bytes of a reply into the room, through the chain, as many as there is room for, and answers how many. Of a fault
/// there are none.
fn write<B: Naming>(
    parcel: &mut Opened,
    chain: &Result<Chain, ChainFault>,
    done: &DonePass<Display, B>,
    reply: &Reply,
) -> u32
    requires walk { IsWalkOf parcel.old chain.now }
    requires asked { ⟦<Display as Machine>⟧.asks done.now.order.request ≡ asked_of parcel.old }
    requires reply { reply.now ≡ done.now.reply }
    ensures response { parcel.new ≡ record parcel.old { response = written_in parcel.old.room reply.now } }
    ensures len { length parcel.new.response ≡ result }
{
    done.can_be_read();
    match (chain, reply) {
        (Ok(chain), Reply::Response { bytes }) => parcel.fill_by(chain, bytes.as_slice()),
        (_, Reply::Fault { .. }) => cleared(parcel),
        (Err(_), Reply::Response { .. }) => unreachable!(),
    }
}

/// No bytes are in the room.
fn cleared(parcel: &mut Opened) -> u32
    ensures response { parcel.new ≡ record parcel.old { response = [] } }
    ensures len { length parcel.new.response ≡ result }
{
    parcel.clear();
    0
}

/// The cargo of a command that wasn't run, with no bytes.
pub(crate) fn unrun<B: Naming>(cargo: Cargo<Carried<Display, B>>) -> Cargo<Carried<Display, B>>
    requires wanted { ⟦<Carried<Display, B> as Tagged>⟧.is_wanted cargo.pass ≡ true }
    ensures parcel { result.parcel ≡ record cargo.parcel { response = [] } }
    ensures pass { result.pass ≡ turned cargo.pass }
    ensures back { ⟦<Carried<Display, B> as Tagged>⟧.is_wanted result.pass ≡ false }
{
    let (parcel, pass) = cargo.apart();
    let mut parcel = parcel;
    parcel.clear();
    parcel.load(turned_back(pass))
}

/// A wanted pass on its way back.
fn turned_back<B: Naming>(pass: Carried<Display, B>) -> Carried<Display, B>
    requires wanted { ⟦<Carried<Display, B> as Tagged>⟧.is_wanted pass ≡ true }
    ensures turned { result ≡ turned pass }
    ensures tag { ⟦<Carried<Display, B> as Tagged>⟧.tagged result ≡ ⟦<Carried<Display, B> as Tagged>⟧.tagged pass }
    ensures asked { ⟦<Carried<Display, B> as Tagged>⟧.asks result ≡ ⟦<Carried<Display, B> as Tagged>⟧.asks pass }
    ensures told { ⟦<Carried<Display, B> as Tagged>⟧.told result ≡ None }
    ensures back { ⟦<Carried<Display, B> as Tagged>⟧.is_wanted result ≡ false }
{
    match pass {
        Carried::Wanted(pass) => Carried::Unrun(pass),
        Carried::Done(_) | Carried::Unrun(_) => unreachable!(),
    }
}
