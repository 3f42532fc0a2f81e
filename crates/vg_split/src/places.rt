//! Which places of a ring's descriptor table are free, and how those of a cargo are linked.

ghost use Rattle.std.specs.Prelude.{◌≡◌, ℕ, List, ◌+◌, ◌-◌, ◌<◌, ◌≤◌, nat_le, length, take, drop, slice_index, IfOk};
ghost use Rattle.std.specs.List.{range_with_len};
ghost use Rattle.vg_cargo.specs.Entries.{times};
ghost use Rattle.vg_split.specs.Places.{next_in, wrong, IsGiven, IsGivenBack};

use std::alloc::{AllocError, Global};

/// The places of a ring's table.
#[derive(Drop)]
pub struct Places {
    /// Those from `at` on are free.
    pub free: Vec<u16>,
    pub at: usize,
    /// The place after each that a cargo has, or itself, where it is the last.
    pub links: Vec<u16>,
}

/// The numbers below `size`, in order.
fn all_places(alloc: Global, size: u16) -> Result<Vec<u16>, AllocError>
    ensures { IfOk result (λ places. places.items ≡ range_with_len 0 size) }
{
    let mut places = Vec::with_capacity(alloc, size as usize)?;
    for place in 0..size {
        places.push(place)?;
    }
    Ok(places)
}

/// The place after the one at `at`, or that one itself, where it is the last.
fn next_of(places: &[u16], at: usize) -> u16
    requires { at < length places.now }
    ensures { result ≡ next_in (slice_index places.now at) (drop (at + 1) places.now) }
{
    if at + 1 < places.len() {
        places[at + 1]
    } else {
        places[at]
    }
}

/// Links each of these places to the next one, and the last one to itself.
fn link(links: &mut [u16], places: &[u16])
    requires below { (p : ℕ) → 0 < times p places.now → p < length links.old }
    requires apart { (p : ℕ) → times p places.now ≤ 1 }
    ensures length { length links.new ≡ length links.old }
    ensures linked { wrong links.new places.now ≡ 0 }
    ensures others { (p : ℕ) → times p places.now ≡ 0 → slice_index links.new p ≡ slice_index links.old p }
{
    let mut at = places.len();
    while at > 0 {
        at -= 1;
        links[places[at] as usize] = next_of(places, at);
    }
}

impl Places {
    /// All places of a ring, which are free.
    pub fn new(alloc: Global, size: u16) -> Result<Places, AllocError>
        ensures free { IfOk result (λ p. p.free.items ≡ range_with_len 0 size) }
        ensures at { IfOk result (λ p. p.at ≡ 0) }
        ensures links { IfOk result (λ p. length p.links.items ≡ size) }
    {
        Ok(Places {
            free: all_places(alloc, size)?,
            at: 0,
            links: vec![in alloc; 0; size as usize]?,
        })
    }

    /// The first free place.
    pub fn first(&self) -> u16
        requires { self.now.at < length self.now.free.items }
        ensures { result ≡ slice_index self.now.free.items self.now.at }
    {
        self.free[self.at]
    }

    /// The next places, as many as `count`.
    pub fn front(&self, count: u16) -> &[u16]
        requires { self.now.at + count ≤ length self.now.free.items }
        ensures { result.now ≡ take count (drop self.now.at self.now.free.items) }
    {
        &self.free[self.at..self.at + count as usize]
    }

    /// Takes the next places, as many as `count`, and links them.
    pub fn take(&mut self, count: u16)
        requires room { self.old.at + count ≤ length self.old.free.items }
        requires below { (p : ℕ) → 0 < times p (take count (drop self.old.at self.old.free.items)) → p < length self.old.links.items }
        requires apart { (p : ℕ) → times p (take count (drop self.old.at self.old.free.items)) ≤ 1 }
        ensures free { (self.new.free.items ≡ self.old.free.items) × (self.new.at ≡ self.old.at + count) }
        ensures length { length self.new.links.items ≡ length self.old.links.items }
        ensures linked { wrong self.new.links.items (take count (drop self.old.at self.old.free.items)) ≡ 0 }
        ensures others { (p : ℕ) → times p (take count (drop self.old.at self.old.free.items)) ≡ 0 → slice_index self.new.links.items p ≡ slice_index self.old.links.items p }
    {
        let end = self.at + count as usize;
        link(self.links.as_mut_slice(), &self.free[self.at..end]);
        self.at = end;
    }

    /// Gives back the places that a cargo had, of which this was the first.
    pub fn give(&mut self, head: u16)
        requires { (places : List ℕ) × IsGiven self.old.links.items self.old.free.items self.old.at head places }
        ensures length { (self.new.links.items ≡ self.old.links.items) × (length self.new.free.items ≡ length self.old.free.items) }
        ensures given { (places : List ℕ) → IsGiven self.old.links.items self.old.free.items self.old.at head places → IsGivenBack self.old.free.items self.old.at self.new.free.items self.new.at places }
    {
        let mut place = head;
        loop {
            self.at -= 1;
            let at = self.at;
            self.free[at] = place;
            let next = self.links[place as usize];
            if next == place {
                return;
            }
            place = next;
        }
    }
}
