//! Both queues of a device, as its workers share them.

ghost use Rattle.std.specs.Prelude.{◌≡◌, ℕ, ◌⊎◌, ◌||◌, ◌&&◌, not, true, false, length, IfOk, OnOk, OnErr};
ghost use Rattle.vg_wire.specs.declared.request.Queue.TheVariants as queues;
ghost use Rattle.vg_notify.specs.Halves.{Arms};
ghost use Rattle.vg_cargo.specs.Walked.{IsWalkOf};
ghost use Rattle.vg_cargo.specs.DeviceEnds.{IsCargoOf};
ghost use Rattle.vg_ring.specs.Making.{IsNewDevice};
ghost use Rattle.vg_front.specs.Desks.{AreNew, is_busy};
ghost use Rattle.vg_front.specs.Loans.{right_of};
ghost use Rattle.vg_front.specs.Fronts.{Asks, Closes, Halts, HasFinished, HasWalked, IsLent, IsNewFront, SameBells, SameDesks, Steps};

use crate::desk::Desk;
use crate::loan::Loan;
use std::alloc::{AllocError, Global};
use std::marker::Model;
use vg_cargo::Cargo;
use vg_chain::{Chain, ChainFault};
use vg_history::{Tagged, Turn};
use vg_notify::Sleeper;
use vg_ring::{ControlOf, CursorOf, DeviceEnd, Rings};

/// What a step gave.
#[derive(Drop)]
pub enum Work<P: Tagged, T: Turn + Drop, N: Rings> {
    /// A command more waits.
    Fetched,
    /// A command to be run, with the right to its chain and its lane's token.
    Run {
        token: T,
        right: Loan<N>,
        cargo: Cargo<P>,
    },
    /// Nothing was in either ring, and somebody works on each lane that has a command.
    Idle,
}

/// Whether a bell is awake: one that sleeps is asked for a kick.
fn ask(bell: &mut Sleeper) -> bool
    ensures asked { Asks bell.old bell.new }
    ensures answer { result ≡ not bell.new.asleep }
{
    !bell.asleep() || bell.called()
}

/// What was fetched of a device's two queues and waits, and the tokens of the lanes that nobody works on. Of a lane's
/// commands the oldest is given out first, and the next one once that is finished.
#[derive(Drop)]
pub struct Front<P: Tagged, T: Turn + Drop, N: Rings> {
    control: Desk<P, T, ControlOf<N>>,
    cursor: Desk<P, T, CursorOf<N>>,
    control_bell: Sleeper,
    cursor_bell: Sleeper,
    /// Room for all tokens, for the end.
    spare: Vec<T>,
}

impl<P: Tagged, T: Turn + Drop, N: Rings> Model for Front<P, T, N> {
    ghost use Rattle.std.specs.Prelude.{◌≡◌, ◌≤◌, [], vec_capacity};
    ghost use Rattle.vg_wire.specs.declared.request.Queue.TheVariants.{Control, Cursor};
    ghost use Rattle.vg_front.specs.Fronts.{FrontData};

    ghost Value = { FrontData P T };

    ghost view = { λ f. record { control = f.control; cursor = f.cursor; control_bell = f.control_bell; cursor_bell = f.cursor_bell } };

    ghost invariant = { λ f. (f.control.lists.queue ≡ Control) × (f.cursor.lists.queue ≡ Cursor) × (f.cursor.halted ≡ f.control.halted) × (f.spare.items ≡ []) × (66 ≤ vec_capacity f.spare) };
}

impl<P: Tagged, T: Turn + Drop, N: Rings> Front<P, T, N> {
    /// A front of two ends that have fetched nothing, with the token of each lane in its place. None has run a command. Each bell is
    /// that of its queue's driver.
    pub fn new(
        alloc: Global,
        control: DeviceEnd<P, ControlOf<N>>,
        cursor: DeviceEnd<P, CursorOf<N>>,
        control_bell: Sleeper,
        cursor_bell: Sleeper,
        tokens: Vec<T>,
    ) -> Result<Front<P, T, N>, AllocError>
        requires control { (size : ℕ) × IsNewDevice queues.Control size control }
        requires cursor { (size : ℕ) × IsNewDevice queues.Cursor size cursor }
        requires tokens { (length tokens.items ≡ 66) × AreNew T.lane_of T.count_of 0 tokens.items }
        ensures new { IfOk result (λ front. IsNewFront control cursor tokens.items front) }
        ensures bells { IfOk result (λ front. (front.control_bell ≡ control_bell) × (front.cursor_bell ≡ cursor_bell)) }
    {
        let mut tokens = tokens;
        let spare = Vec::with_capacity(alloc, 66)?;
        let mut last = Vec::with_capacity(alloc, 1)?;
        last.push(tokens.pop().unwrap())?;
        Ok(Front {
            control: Desk::new(alloc, control, 0, tokens)?,
            cursor: Desk::new(alloc, cursor, 65, last)?,
            control_bell,
            cursor_bell,
            spare,
        })
    }

    /// Fetches a command, or gives out the oldest one of a lane that nobody works on.
    pub fn step(&mut self) -> Work<P, T, N>
        ensures steps { Steps P.is_wanted T.lane_of T.count_of self.old result self.new }
        ensures bells { SameBells self.old self.new }
    {
        if self.control.fetch() || self.cursor.fetch() {
            return Work::Fetched;
        }
        if let Some((token, right, cargo)) = self.control.take() {
            return Work::Run {
                token,
                right: Loan::Control(right),
                cargo,
            };
        }
        if let Some((token, right, cargo)) = self.cursor.take() {
            return Work::Run {
                token,
                right: Loan::Cursor(right),
                cargo,
            };
        }
        Work::Idle
    }

    /// Asks both queues' drivers for a kick once more is published than was fetched (VIRTIO 1.2, 2.7.7.2 and 2.7.10), and answers whether
    /// nothing more is published yet on either. Then nobody needs to step until [`called`](Front::called) answers true.
    pub fn doze(&mut self) -> bool
        ensures control { Arms self.old.control_bell (length self.old.control.lists.fetched) self.new.control_bell.asleep self.new.control_bell }
        ensures cursor { Arms self.old.cursor_bell (length self.old.cursor.lists.fetched) self.new.cursor_bell.asleep self.new.cursor_bell }
        ensures answer { result ≡ (self.new.control_bell.asleep && self.new.cursor_bell.asleep) }
        ensures desks { SameDesks self.old self.new }
    {
        let control = self.control_bell.arm(self.control.fetched());
        let cursor = self.cursor_bell.arm(self.cursor.fetched());
        control && cursor
    }

    /// Whether a queue's bell is awake: one that sleeps is asked for a kick. It looks at neither ring.
    pub fn called(&mut self) -> bool
        ensures control { Asks self.old.control_bell self.new.control_bell }
        ensures cursor { Asks self.old.cursor_bell self.new.cursor_bell }
        ensures answer { result ≡ not (self.new.control_bell.asleep && self.new.cursor_bell.asleep) }
        ensures desks { SameDesks self.old self.new }
    {
        let control = ask(&mut self.control_bell);
        let cursor = ask(&mut self.cursor_bell);
        control || cursor
    }

    /// The chain of a command that was given out, or its fault, as its descriptors stand in the ring's words. The right is
    /// walked then, unless there was no memory.
    pub fn chain(
        &mut self,
        alloc: Global,
        right: &mut Loan<N>,
        cargo: &Cargo<P>,
    ) -> Result<Result<Chain, ChainFault>, AllocError>
        requires lent { IsLent self.old right.old }
        requires cargo { IsCargoOf (right_of right.old).entry cargo.now }
        ensures chain { IfOk result (λ walked. IsWalkOf cargo.now.parcel walked) }
        ensures walked { OnOk result (HasWalked right.old right.new) }
        ensures err { OnErr result (right.new ≡ right.old) }
        ensures same { self.new ≡ self.old }
    {
        match right {
            Loan::Control(right) => self.control.chain(alloc, right, cargo),
            Loan::Cursor(right) => self.cursor.chain(alloc, right, cargo),
        }
    }

    /// Completes a command that was given out, with the length of its response in bytes, and takes its lane's token back.
    /// Its pass isn't wanted any more. Until the front is halted, the command was run and its chain walked.
    pub fn finish(&mut self, token: T, right: Loan<N>, len: u32, cargo: Cargo<P>)
        requires lane { T.lane_of token ≡ (right_of right).entry.lane }
        requires cargo { IsCargoOf (right_of right).entry cargo × (P.is_wanted cargo.pass ≡ false) }
        requires len { length cargo.parcel.response ≡ len }
        requires turn { (self.old.control.halted ≡ true) ⊎ (((right_of right).walked ≡ true) × (T.count_of token ≡ (right_of right).entry.ordinal)) }
        ensures finished { HasFinished self.old token right len cargo self.new }
        ensures bells { SameBells self.old self.new }
    {
        match right {
            Loan::Control(right) => self.control.finish(token, right, len, cargo),
            Loan::Cursor(right) => self.cursor.finish(token, right, len, cargo),
        }
    }

    /// From now on commands may be finished without having been run.
    pub fn halt(&mut self)
        ensures { Halts self.old self.new }
    {
        self.control.halt();
        self.cursor.halt();
    }

    /// Whether commands may be finished without having been run.
    pub fn halted(&self) -> bool
        ensures { result ≡ self.now.control.halted }
    {
        self.control.halted()
    }

    /// Whether a command waits, or somebody works on a lane.
    pub fn busy(&self) -> bool
        ensures { result ≡ (is_busy self.now.control || is_busy self.now.cursor) }
    {
        self.control.busy() || self.cursor.busy()
    }

    /// The tokens of all lanes, and both ends. Unless the front was halted, each lane's token has run all that was completed
    /// on it, whose ordinals rise one by one from 1.
    pub fn close(
        self,
    ) -> (
        Vec<T>,
        DeviceEnd<P, ControlOf<N>>,
        DeviceEnd<P, CursorOf<N>>,
    )
        requires { (is_busy self.control ≡ false) × (is_busy self.cursor ≡ false) }
        ensures { Closes T.lane_of T.count_of self result.0.items result.1 result.2 }
    {
        let Front {
            control,
            cursor,
            spare,
            ..
        } = self;
        control.are_lanes();
        cursor.are_lanes();
        let mut tokens = spare;
        let control = control.close(&mut tokens);
        let cursor = cursor.close(&mut tokens);
        (tokens, control, cursor)
    }
}
