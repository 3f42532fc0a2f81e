//! The UUIDs of resources (VIRTIO 1.2, 5.7.6.8).

ghost use Rattle.std.specs.Prelude.{◌≡◌, ◌<◌, ◌-◌, ◌^◌, [], IfOk, OnOk, OnErr};
ghost use Rattle.vg_blob.specs.Uuids.{assigned, forgotten, number_for, uuid_bytes};

use std::alloc::{AllocError, Global};
use std::collections::BTreeMap;
use std::marker::Model;
use uuid::Uuid;

/// What the number of a UUID is added to: version 8 and the variant of RFC 9562, and else zeros behind the front.
const FIRST: u128 = 0x7667_7055_0000_8000_8000_0000_0000_0000;

/// The UUIDs that resources have: each has a number, from 1, among all that were given.
#[derive(Drop)]
pub struct Uuids {
    numbers: BTreeMap<u32, u64>,
    given: u64,
}

impl Model for Uuids {
    ghost use Rattle.vg_blob.specs.Uuids.{UuidState};

    ghost Value = { UuidState };

    ghost view = { λ u. record { numbers = u.numbers.entries; given = u.given } };
}

impl Uuids {
    /// No resource has a UUID.
    pub fn new(alloc: Global) -> Uuids
        ensures { result ≡ record { numbers = []; given = 0 } }
    {
        Uuids {
            numbers: BTreeMap::new(alloc),
            given: 0,
        }
    }

    /// The number of the resource's UUID, and else of the next.
    fn number_for(&self, resource: u32) -> u64
        requires { self.now.given < 2 ^ 64 - 1 }
        ensures { result ≡ number_for resource self.now }
    {
        match self.numbers.get(&resource) {
            Some(number) => *number,
            None => self.given + 1,
        }
    }

    /// The UUID that the resource has, and else the one that it gets where it is given one.
    pub fn of(&self, resource: u32) -> Uuid
        requires { self.now.given < 2 ^ 64 - 1 }
        ensures { result ≡ uuid_bytes (number_for resource self.now) }
    {
        uuid_of(self.number_for(resource))
    }

    /// Gives the resource a UUID, unless it has one. It has the one that is answered then.
    pub fn assign(&mut self, resource: u32) -> Result<Uuid, AllocError>
        requires { self.old.given < 2 ^ 64 - 1 }
        ensures value { IfOk result (λ uuid. uuid ≡ uuid_bytes (number_for resource self.old)) }
        ensures state { OnOk result (self.new ≡ assigned resource self.old) }
        ensures err { OnErr result (self.new ≡ self.old) }
    {
        if let Some(number) = self.numbers.get(&resource) {
            return Ok(uuid_of(*number));
        }
        let number = self.given + 1;
        self.numbers.insert(resource, number)?;
        self.given = number;
        Ok(uuid_of(number))
    }

    /// Ends the resource's UUID, if it has one. Its number isn't given again.
    pub fn forget(&mut self, resource: u32)
        ensures { self.new ≡ forgotten resource self.old }
    {
        self.numbers.remove(&resource);
    }
}

/// The UUID of a number.
#[tactic(auto, unfolding(crate::specs::Uuids::uuid_bytes))]
fn uuid_of(number: u64) -> Uuid
    ensures { result ≡ uuid_bytes number }
{
    Uuid::from_u128(FIRST + u128::from(number))
}
