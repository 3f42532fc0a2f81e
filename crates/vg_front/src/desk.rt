//! One queue of a device: what was fetched and waits, and the tokens of its lanes.

ghost use Rattle.std.specs.Prelude.{◌≡◌, ℕ, ◌⊎◌, ◌+◌, ◌<◌, ◌≤◌, true, false, Some, [], ◌++◌, length, map, vec_capacity, vec_len, IfOk, OnOk, OnErr, MatchOption};
ghost use Rattle.std.specs.List.{All};
ghost use Rattle.vg_wire.specs.declared.request.Queue.{Queue};
ghost use Rattle.vg_cargo.specs.Entries.{Has};
ghost use Rattle.vg_cargo.specs.Walked.{IsWalkOf};
ghost use Rattle.vg_cargo.specs.DeviceEnds.{IsCargoOf};
ghost use Rattle.vg_ring.specs.Making.{IsNewDevice};
ghost use Rattle.vg_front.specs.Lanes.{AreLanes};
ghost use Rattle.vg_front.specs.Desks.{AddsTokens, AreNew, Finishes, IsAway, IsFirstReady, IsIdle, IsOfLanes, Looks, Takes, is_busy, is_some_away};

use std::alloc::{AllocError, Global};
use std::marker::Model;
use vg_cargo::Cargo;
use vg_chain::{Chain, ChainFault};
use vg_history::{Tagged, Turn};
use vg_ring::{DeviceEnd, Fetched, Naming, Right};

/// The device's end of a queue, and the queue's lanes.
#[derive(Drop)]
pub(crate) struct Desk<P: Tagged, T: Turn + Drop, N: Naming> {
    end: DeviceEnd<P, N>,
    /// The number of the first lane.
    first: u32,
    /// The token of each lane, while nobody works on the lane.
    homes: Vec<Option<T>>,
    /// What was fetched and nobody has taken yet, in the order in which it came. It has room for the whole ring.
    waiting: Vec<(u16, Cargo<P>)>,
    /// Whether commands go back without being run.
    halted: bool,
}

impl<P: Tagged, T: Turn + Drop, N: Naming> Model for Desk<P, T, N> {
    ghost use Rattle.std.specs.Prelude.{◌≡◌, ◌≤◌, List, length, vec_capacity};
    ghost use Rattle.vg_cargo.specs.declared.entries.Entry.{Entry};
    ghost use Rattle.vg_front.specs.Lanes.{IsDesk};
    ghost use Rattle.vg_front.specs.Desks.{DeskData};

    ghost Value = { DeskData P T };

    ghost view = { λ d. record { lists = d.end; first = d.first; homes = d.homes.items; waiting = d.waiting.items; halted = d.halted } };

    ghost invariant = { λ d. ((waits : List Entry) × IsDesk P.is_wanted T.lane_of T.count_of d.end d.first d.homes.items d.waiting.items d.halted waits) × (d.end.size ≤ vec_capacity d.waiting) };
}

impl<P: Tagged, T: Turn + Drop, N: Naming> Desk<P, T, N> {
    /// Fetches what was published next. False where there is nothing.
    pub(crate) fn fetch(&mut self) -> bool
        ensures { Looks P.is_wanted self.old self.new result }
    {
        match self.end.fetch() {
            None => false,
            Some(Fetched { head, cargo }) => {
                self.waiting.push((head, cargo)).unwrap();
                true
            }
        }
    }

    /// Takes the oldest command of a lane that nobody works on, with its right and the lane's token. None where there is no
    /// such lane.
    pub(crate) fn take(&mut self) -> Option<(T, Right<N>, Cargo<P>)>
        ensures { MatchOption result (IsIdle self.old × (self.new ≡ self.old)) (λ r. Takes P.is_wanted T.lane_of T.count_of self.old r.0 r.1 r.2 self.new) }
    {
        let place = first_ready(self.homes.as_slice(), self.first, self.waiting.as_slice())?;
        let (head, cargo) = self.waiting.remove(place);
        let lane = cargo.tag().lane - self.first;
        let token = self.homes[lane as usize].take().unwrap();
        let right = self.end.lend(head);
        Some((token, right, cargo))
    }

    /// How many cargoes were fetched.
    pub(crate) fn fetched(&self) -> u64
        ensures { result ≡ length self.now.lists.fetched }
    {
        self.end.fetched()
    }

    /// The chain of a command that was taken, or its fault.
    pub(crate) fn chain(
        &mut self,
        alloc: Global,
        right: &mut Right<N>,
        cargo: &Cargo<P>,
    ) -> Result<Result<Chain, ChainFault>, AllocError>
        requires lent { Has right.old.entry self.old.lists.lent }
        requires cargo { IsCargoOf right.old.entry cargo.now }
        ensures chain { IfOk result (λ walked. IsWalkOf cargo.now.parcel walked) }
        ensures walked { OnOk result (right.new ≡ record right.old { walked = true }) }
        ensures err { OnErr result (right.new ≡ right.old) }
        ensures same { self.new ≡ self.old }
    {
        self.end.chain(alloc, right, cargo)
    }

    /// Completes a command that was taken, and takes its lane's token back.
    pub(crate) fn finish(&mut self, token: T, right: Right<N>, len: u32, cargo: Cargo<P>)
        requires lane { T.lane_of token ≡ right.entry.lane }
        requires cargo { IsCargoOf right.entry cargo × (P.is_wanted cargo.pass ≡ false) }
        requires len { length cargo.parcel.response ≡ len }
        requires turn { (self.old.halted ≡ true) ⊎ (T.count_of token ≡ right.entry.ordinal) }
        ensures { Finishes self.old token right len cargo self.new }
    {
        let head = right.head();
        let tag = right.tag();
        self.end.take_in(right);
        self.end.complete(head, len, cargo);
        let lane = tag.lane - self.first;
        self.homes[lane as usize] = Some(token);
    }

    /// Does nothing: it tells which lanes a queue has.
    pub(crate) fn are_lanes(&self)
        ensures { AreLanes self.now.lists.queue self.now.first (length self.now.homes) }
    {
        let _ = &self.homes;
    }

    /// From now on commands go back without being run.
    pub(crate) fn halt(&mut self)
        ensures { self.new ≡ record self.old { halted = true } }
    {
        self.halted = true;
    }

    /// Whether commands go back without being run.
    pub(crate) fn halted(&self) -> bool
        ensures { result ≡ self.now.halted }
    {
        self.halted
    }

    /// Whether something waits, or somebody works on a lane.
    pub(crate) fn busy(&self) -> bool
        ensures { result ≡ is_busy self.now }
    {
        !self.waiting.is_empty() || has_none(self.homes.as_slice())
    }

    /// Puts the tokens of all lanes behind these, where there is room for them, and gives the end.
    pub(crate) fn close(self, tokens: &mut Vec<T>) -> DeviceEnd<P, N>
        requires idle { is_busy self ≡ false }
        requires room { vec_len tokens.old + length self.homes ≤ vec_capacity tokens.old }
        ensures tokens { AddsTokens T.lane_of T.count_of self tokens.old.items tokens.new.items }
        ensures room { vec_capacity tokens.old ≤ vec_capacity tokens.new }
        ensures end { result ≡ self.lists }
    {
        let Desk { end, homes, .. } = self;
        put_tokens(homes, tokens);
        end
    }

    /// A queue of which nothing was fetched, with the tokens of its lanes.
    pub(crate) fn new(
        alloc: Global,
        end: DeviceEnd<P, N>,
        first: u32,
        tokens: Vec<T>,
    ) -> Result<Desk<P, T, N>, AllocError>
        requires end { (queue : Queue) × (size : ℕ) × IsNewDevice queue size end }
        requires lanes { AreLanes end.queue first (length tokens.items) }
        requires tokens { AreNew T.lane_of T.count_of first tokens.items }
        ensures { IfOk result (λ desk. desk ≡ record { lists = end; first = first; homes = map Some tokens.items; waiting = []; halted = false }) }
    {
        let waiting = Vec::with_capacity(alloc, end.size() as usize)?;
        Ok(Desk {
            end,
            first,
            homes: at_home(alloc, tokens)?,
            waiting,
            halted: false,
        })
    }
}

/// The place of the first of these commands whose lane has its token at home.
fn first_ready<P: Tagged, T: Turn + Drop>(
    homes: &[Option<T>],
    first: u32,
    waiting: &[(u16, Cargo<P>)],
) -> Option<usize>
    requires { All (IsOfLanes first (length homes.now)) waiting.now }
    ensures { MatchOption result (All (IsAway first homes.now) waiting.now) (λ place. IsFirstReady first homes.now waiting.now place) }
{
    for (place, command) in waiting.iter().enumerate() {
        let lane = command.1.tag().lane - first;
        if homes[lane as usize].is_some() {
            return Some(place);
        }
    }
    None
}

/// Whether one of these isn't there.
fn has_none<T: Drop>(homes: &[Option<T>]) -> bool
    ensures { result ≡ is_some_away homes.now }
{
    for home in homes {
        if home.is_none() {
            return true;
        }
    }
    false
}

/// All of these, as tokens at home.
fn at_home<T: Drop>(alloc: Global, tokens: Vec<T>) -> Result<Vec<Option<T>>, AllocError>
    ensures { IfOk result (λ homes. homes.items ≡ map Some tokens.items) }
{
    let mut homes = Vec::with_capacity(alloc, tokens.len())?;
    for token in tokens {
        homes.push(Some(token))?;
    }
    Ok(homes)
}

/// Puts tokens, each of which is at home, behind these, where there is room for them.
fn put_tokens<T: Drop>(homes: Vec<Option<T>>, tokens: &mut Vec<T>)
    requires homes { is_some_away homes.items ≡ false }
    requires room { vec_len tokens.old + length homes.items ≤ vec_capacity tokens.old }
    ensures tokens { map Some tokens.new.items ≡ map Some tokens.old.items ++ homes.items }
    ensures room { vec_capacity tokens.old ≤ vec_capacity tokens.new }
{
    let mut homes = homes;
    for lane in 0..homes.len() {
        let token = homes[lane].take().unwrap();
        tokens.push(token).unwrap();
    }
}
