//! What goes over a ring: a request with its room, and the pass that goes with it.

ghost use Rattle.std.specs.Prelude.{◌≡◌, false, true, length, IfErr, IfOk};
ghost use Rattle.vg_chain.specs.Asks.{asked};
ghost use Rattle.vg_cargo.specs.Cargo.{IsLane, IsExtent, Tells, asked_of, base_of};
ghost use Rattle.vg_cargo.specs.Walked.{IsWalkOf};
ghost use Rattle.vg_chain.specs.declared.form.Form.TheVariants.{Split};
ghost use Rattle.vg_chain.specs.Made.{AreTables};

use crate::parcel::{Command, Opened, Parcel, Tag};
use std::alloc::{AllocError, Global};
use std::marker::Model;
use vg_chain::{Chain, ChainFault, Extent, Parts};
use vg_history::Tagged;

/// A parcel and its pass, which has the parcel's tag, asks for what the parcel does, and tells its response once it was run. On its
/// way out it has the request's bytes.
#[derive(Drop)]
pub struct Cargo<P: Tagged> {
    parcel: Opened,
    /// None on the way back.
    request: Option<Vec<u8>>,
    pass: P,
}

/// A cargo that was opened: what it asks for, the parcel without the request's bytes, and the pass.
#[derive(Drop)]
pub struct Opening<P: Tagged> {
    pub command: Command,
    pub parcel: Opened,
    pub pass: P,
}

impl<P: Tagged> Model for Cargo<P> {
    ghost use Rattle.std.specs.Prelude.{◌≡◌, true, MatchOption};
    ghost use Rattle.vg_cargo.specs.Cargo.{CargoData, Tells, asked_of};

    ghost Value = { CargoData P };

    ghost view = { λ c. record { parcel = c.parcel; pass = c.pass } };

    ghost invariant = { λ c. (P.tagged c.pass ≡ (c.parcel.lane, c.parcel.ordinal)) × (P.asks c.pass ≡ asked_of c.parcel) × Tells (P.told c.pass) c.parcel.response × (P.is_wanted c.pass ≡ true → MatchOption c.request ⊥ (λ bytes. bytes.items ≡ c.parcel.request)) };
}

impl Parcel {
    /// The parcel with its pass.
    pub fn load<P: Tagged>(self, pass: P) -> Cargo<P>
        requires tag { P.tagged pass ≡ (self.lane, self.ordinal) }
        requires asked { P.asks pass ≡ asked_of self }
        requires told { Tells (P.told pass) self.response }
        ensures { result ≡ record { parcel = self; pass = pass } }
    {
        let (parcel, request) = self.open();
        Cargo {
            parcel,
            request: Some(request),
            pass,
        }
    }
}

impl Opened {
    /// The parcel with its pass, which isn't wanted any more.
    pub fn load<P: Tagged>(self, pass: P) -> Cargo<P>
        requires back { P.is_wanted pass ≡ false }
        requires tag { P.tagged pass ≡ (self.lane, self.ordinal) }
        requires asked { P.asks pass ≡ asked_of self }
        requires told { Tells (P.told pass) self.response }
        ensures { result ≡ record { parcel = self; pass = pass } }
    {
        Cargo {
            parcel: self,
            request: None,
            pass,
        }
    }
}

impl<P: Tagged> Cargo<P> {
    /// The lane and the ordinal.
    pub fn tag(&self) -> Tag
        ensures tag { (result.lane ≡ self.now.parcel.lane) × (result.ordinal ≡ self.now.parcel.ordinal) }
        ensures pass { P.tagged self.now.pass ≡ (result.lane, result.ordinal) }
        ensures lane { IsLane self.now.parcel.queue result.lane }
    {
        self.parcel.tag()
    }

    /// Where the request and its room lie.
    pub fn extent(&self) -> Extent
        ensures { IsExtent self.now.parcel result.base result.request result.room }
    {
        self.parcel.extent()
    }

    /// Where its parts lie, with the bytes of its tables.
    pub fn parts(&self) -> Parts
        ensures extent { IsExtent self.now.parcel result.base result.request result.room }
        ensures form { result.form ≡ Split }
        ensures tables { AreTables Split self.now.parcel.shape (length self.now.parcel.request) self.now.parcel.room (base_of self.now.parcel.queue self.now.parcel.head) result.tables.now }
    {
        self.parcel.parts()
    }

    /// Opens a cargo on its way out, by the walk of its chain. It is the only call that shows a request's bytes to a device, and they
    /// are moved where they lie in one segment. For want of memory the cargo comes back.
    pub fn open(
        self,
        alloc: Global,
        walked: &Result<Chain, ChainFault>,
    ) -> Result<Opening<P>, Cargo<P>>
        requires wanted { P.is_wanted self.pass ≡ true }
        requires walk { IsWalkOf self.parcel walked.now }
        ensures read { IfOk result (λ r. P.asks self.pass ≡ asked r.command.queue r.command.bytes.items r.command.room r.command.shape) }
        ensures parcel { IfOk result (λ r. (r.parcel ≡ self.parcel) × (r.pass ≡ self.pass)) }
        ensures tag { IfOk result (λ r. P.tagged r.pass ≡ (r.parcel.lane, r.parcel.ordinal)) }
        ensures asked { IfOk result (λ r. P.asks r.pass ≡ asked_of r.parcel) }
        ensures err { IfErr result (λ back. back ≡ self) }
    {
        let Cargo {
            parcel,
            request,
            pass,
        } = self;
        let Some(request) = request else {
            unreachable!();
        };
        match parcel.read(alloc, request, walked) {
            Ok(command) => Ok(Opening {
                command,
                parcel,
                pass,
            }),
            Err(request) => Err(Cargo {
                parcel,
                request: Some(request),
                pass,
            }),
        }
    }

    /// As `Opened::response`.
    pub fn response(&self, len: u32) -> &[u8]
        requires { length self.now.parcel.response ≡ len }
        ensures { result.now ≡ self.now.parcel.response }
    {
        self.parcel.response(len)
    }

    /// The parcel without the request's bytes, and the pass.
    pub fn apart(self) -> (Opened, P)
        ensures parcel { result.0 ≡ self.parcel }
        ensures pass { result.1 ≡ self.pass }
        ensures tag { P.tagged self.pass ≡ (self.parcel.lane, self.parcel.ordinal) }
        ensures asked { P.asks self.pass ≡ asked_of self.parcel }
        ensures told { Tells (P.told self.pass) self.parcel.response }
    {
        let Cargo {
            parcel,
            request: _,
            pass,
        } = self;
        (parcel, pass)
    }
}
