//! Features and status, as a driver sets them up (VIRTIO 1.2, 2.1, 2.2 and 3.1.1).

ghost use Rattle.std.specs.Prelude.{◌≡◌, ◌↔◌, ◌<◌, ◌^◌, if◌then◌else◌, IsOk, IsSome, IfErr, OnOk, OnErr, unwrap_or, bit_and};
ghost use Rattle.vg_config.specs.Features.{AreFaulty, IsFaultless, lacks_virgl};
ghost use Rattle.vg_config.specs.Features as set;
ghost use Rattle.vg_config.specs.Status.{first_stage, with_accepted, with_bit};

use crate::features::{
    CONTEXT_INIT, CONTEXT_INIT_BIT, OFFERED, VERSION_1, VERSION_1_BIT, VIRGL_BIT,
};
use std::marker::Model;

const ACKNOWLEDGE: u8 = 1;

const DRIVER: u8 = 2;

const DRIVER_OK: u8 = 4;

const FEATURES_OK: u8 = 8;

/// The faulty bits of features that were refused: each that isn't offered, CONTEXT_INIT without VIRGL,
/// and VERSION_1 where it is missing.
#[derive(Clone, Copy, Debug, PartialEq, Eq)]
pub struct Refused {
    pub bits: u64,
}

/// The features that were accepted and the device status byte: ACKNOWLEDGE 1, DRIVER 2, DRIVER_OK 4,
/// FEATURES_OK 8; DEVICE_NEEDS_RESET 64 and FAILED 128 are never set.
#[derive(Debug, Drop)]
pub struct Negotiation {
    status: u8,
    accepted: Option<u64>,
}

impl Model for Negotiation {
    ghost use Rattle.vg_config.specs.Status.{Stage};

    ghost Value = { Stage };

    ghost view = { λ n. record { status = n.status; accepted = n.accepted } };
}

/// Whether feature `n` is in the set.
fn has(features: u64, n: u32) -> bool
    requires { n < 64 }
    ensures { result ≡ set.has features n }
{
    (features >> n) & 1 == 1
}

/// CONTEXT_INIT where it is there without VIRGL.
fn lone_context(features: u64) -> u64
    ensures { result ≡ (if lacks_virgl features then set.CONTEXT_INIT else 0) }
{
    if has(features, CONTEXT_INIT_BIT) && !has(features, VIRGL_BIT) {
        CONTEXT_INIT
    } else {
        0
    }
}

/// VERSION_1 where it is missing.
fn missing_version(features: u64) -> u64
    ensures { result ≡ (if set.has features set.VERSION_1_BIT then 0 else set.VERSION_1) }
{
    if has(features, VERSION_1_BIT) {
        0
    } else {
        VERSION_1
    }
}

/// The faulty bits of these features.
fn faulty_bits(features: u64) -> u64
    ensures { AreFaulty features result }
{
    (features & !OFFERED) | lone_context(features) | missing_version(features)
}

impl Negotiation {
    /// The features `OFFERED` are offered, none are accepted, and the status is ACKNOWLEDGE and DRIVER.
    pub fn offer() -> Negotiation
        ensures { result ≡ first_stage }
    {
        Negotiation {
            status: ACKNOWLEDGE | DRIVER,
            accepted: None,
        }
    }

    /// Accepts these features in place of those accepted before. Refused with the faulty bits where there
    /// are any; nothing changes then.
    pub fn accept(&mut self, bits: u64) -> Result<(), Refused>
        ensures exact { IsOk result ↔ IsFaultless bits }
        ensures faulty { IfErr result (λ refused. AreFaulty bits refused.bits) }
        ensures accepted { OnOk result (self.new ≡ with_accepted self.old bits) }
        ensures unchanged { OnErr result (self.new ≡ self.old) }
    {
        let faulty = faulty_bits(bits);
        if faulty != 0 {
            return Err(Refused { bits: faulty });
        }
        self.accepted = Some(bits);
        Ok(())
    }

    /// Sets FEATURES_OK. Features must have been accepted.
    pub fn features_ok(&mut self)
        requires { IsSome self.old.accepted }
        ensures { self.new ≡ with_bit self.old 8 }
    {
        self.status |= FEATURES_OK;
    }

    /// Sets DRIVER_OK. FEATURES_OK must be set.
    pub fn driver_ok(&mut self)
        requires { bit_and self.old.status 8 ≡ 8 }
        ensures { self.new ≡ with_bit self.old 4 }
    {
        self.status |= DRIVER_OK;
    }

    /// The device status byte.
    pub fn status(&self) -> u8
        ensures { result ≡ self.now.status }
    {
        self.status
    }

    /// The features that were accepted last, one bit for each; 0 before any were.
    pub fn accepted(&self) -> u64
        ensures { result ≡ unwrap_or self.now.accepted 0 }
    {
        self.accepted.unwrap_or(0)
    }
}
