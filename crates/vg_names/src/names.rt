//! The names of a client's buffers, each kept in a place that is used again once the name ends.

ghost use Rattle.std.specs.Prelude.{◌≡◌, ◌+◌, ◌<◌, ◌^◌, [], IfOk, IsSome, OnErr, OnOk, map};
ghost use Rattle.slab.specs.Slab.{entries, get, Updates};
ghost use Rattle.vg_names.specs.Names.{current_from, found, has_one_name, kept_at, of_number, place_at, with_name, with_none, without_name};

use slab::Slab;
use std::alloc::{AllocError, Global};
use std::marker::Model;

/// What a current name stands for: its number among all names that the client has defined, from 1, the buffer's key, and the
/// buffer's width and height in pixels.
#[derive(Clone, Copy)]
pub struct Held {
    pub number: u32,
    pub key: u32,
    pub width: u32,
    pub height: u32,
}

/// The names of a client's buffers.
#[derive(Drop)]
pub struct Names {
    held: Slab<Held>,
    /// Where what each name stands for is or was kept, in the order in which they were defined; nowhere where a name never was
    /// current.
    places: Vec<Option<usize>>,
}

impl Model for Names {
    ghost use Rattle.std.specs.Prelude.{length};
    ghost use Rattle.vg_names.specs.Names.{NamesState, AreKept, current_from};

    ghost Value = { NamesState };

    ghost view = { λ n. record { current = current_from 1 n.held.slots n.places.items; made = length n.places.items } };

    ghost invariant = { λ n. AreKept n.held.slots n.places.items };
}

impl Names {
    /// No names.
    pub fn new(alloc: Global) -> Names
        ensures { result ≡ record { current = []; made = 0 } }
    {
        Names {
            held: Slab::new(alloc),
            places: Vec::new(alloc),
        }
    }

    /// What the name of this number stands for, if it is current.
    pub fn find(&self, number: u32) -> Option<Held>
        ensures { result ≡ found number self.now }
    {
        let place = place_of(self.places.as_slice(), number)?;
        kept(&self.held, place, number as usize)
    }

    /// Defines the next name, as that of a buffer.
    pub fn make(&mut self, key: u32, width: u32, height: u32) -> Result<(), AllocError>
        requires { self.old.made < 2 ^ 31 }
        ensures ok { OnOk result (self.new ≡ with_name key width height self.old) }
        ensures err { OnErr result (self.new ≡ self.old) }
    {
        self.places.reserve(1)?;
        self.held.reserve(1)?;
        let number = self.places.len() as u32 + 1;
        let place = self.held.insert_reserved(Held {
            number,
            key,
            width,
            height,
        });
        self.places.push(Some(place)).unwrap();
        Ok(())
    }

    /// Defines the next name, as one that never is current.
    pub fn make_none(&mut self) -> Result<(), AllocError>
        ensures ok { OnOk result (self.new ≡ with_none self.old) }
        ensures err { OnErr result (self.new ≡ self.old) }
    {
        self.places.reserve(1)?;
        self.places.push(None).unwrap();
        Ok(())
    }

    /// Ends the name of this number, if it is current: its place is free for another name then.
    pub fn end(&mut self, number: u32)
        ensures { self.new ≡ without_name number self.old }
    {
        if let Some(place) = place_of(self.places.as_slice(), number) {
            free(&mut self.held, place, number as usize);
        }
    }

    /// What the current names stand for, in the order in which they were defined.
    pub fn current(&self, alloc: Global) -> Result<Vec<Held>, AllocError>
        ensures { IfOk result (λ held. held.items ≡ self.now.current) }
    {
        current_of(alloc, self.places.as_slice(), &self.held)
    }

    /// Whether one current name stands for the buffer of this key, and no other. Names that have ended aren't gone over.
    pub fn has_one_name(&self, key: u32) -> bool
        ensures { result ≡ has_one_name key self.now.current }
    {
        has_one(&self.held, key)
    }

    /// How many names were defined.
    pub fn made(&self) -> u32
        requires { self.now.made < 2 ^ 32 }
        ensures { result ≡ self.now.made }
    {
        self.places.len() as u32
    }
}

/// Where what the name of this number stands for is or was kept, if it ever was current.
fn place_of(places: &[Option<usize>], number: u32) -> Option<usize>
    ensures { result ≡ place_at number places.now }
{
    if number == 0 {
        return None;
    }
    places.get(number as usize - 1).copied()?
}

/// Whether one buffer that is kept is of this key, and no other.
fn has_one(held: &Slab<Held>, key: u32) -> bool
    ensures { result ≡ has_one_name key (map (λ e. e.1) (entries held.now)) }
{
    let mut found = false;
    for (_place, one) in held.iter() {
        if one.key == key {
            if found {
                return false;
            }
            found = true;
        }
    }
    found
}

/// What is kept at a place, if it is of this number.
fn kept(held: &Slab<Held>, place: usize, number: usize) -> Option<Held>
    ensures { result ≡ of_number number (get held.now place) }
{
    let one = held.get(place)?;
    if one.number as usize == number {
        Some(*one)
    } else {
        None
    }
}

/// Frees a place, if what is kept there is of this number.
fn free(held: &mut Slab<Held>, place: usize, number: usize)
    ensures other { of_number number (get held.old place) ≡ None → held.new ≡ held.old }
    ensures freed { IsSome (of_number number (get held.old place)) → Updates held.old held.new place None }
{
    if kept(held, place, number).is_some() {
        held.try_remove(place);
    }
}

/// What these places keep, each of its own number.
fn current_of(
    alloc: Global,
    places: &[Option<usize>],
    held: &Slab<Held>,
) -> Result<Vec<Held>, AllocError>
    ensures { IfOk result (λ current. current.items ≡ current_from 1 held.now.slots places.now) }
{
    let mut current = Vec::new(alloc);
    for (i, place) in places.iter().enumerate() {
        if let Some(one) = kept_at(held, *place, i + 1) {
            current.push(one)?;
        }
    }
    Ok(current)
}

/// What is kept at a place, where there is one, if it is of this number.
fn kept_at(held: &Slab<Held>, place: Option<usize>, number: usize) -> Option<Held>
    ensures { result ≡ kept_at number held.now.slots place }
{
    kept(held, place?, number)
}
