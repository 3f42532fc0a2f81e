//! Bytes that lie in strips of one length.

ghost use Rattle.std.specs.Prelude.{◌≡◌, ◌+◌, ◌-◌, ◌*◌, ◌/◌, ◌%◌, ◌<◌, ◌≤◌, ◌++◌, drop, length, take, IfOk, OnOk};
ghost use Rattle.vg_shared_bytes.specs.PlansWithin.{Grows, IsPlanned};
ghost use Rattle.vg_shared_bytes.specs.Strips.{IsWide, strip_with};

use crate::plan::{Plan, carried_out, planned};
use crate::strip::{Strip, rest_of, start_of};
use std::alloc::{AllocError, Global};
use std::marker::Model;
use std::sync::ArcSlice;

/// How many bytes a strip has; the last one may have fewer.
const STRIP: usize = 1024;

/// Bytes in strips that other bytes may share. A clause sees only the bytes.
#[derive(Drop)]
pub struct Strips {
    strips: Vec<Strip>,
    /// How many bytes there are.
    len: usize,
}

impl Model for Strips {
    ghost use Rattle.std.specs.Prelude.{◌≡◌, List, ℕ, length};
    ghost use Rattle.std.specs.List.{concat};
    ghost use Rattle.vg_shared_bytes.specs.Strips.{IsCut};

    ghost Value = { List ℕ };

    ghost view = { λ c. concat c.strips.items };

    ghost invariant = { λ c. (c.len ≡ length (concat c.strips.items)) × IsCut (concat c.strips.items) c.strips.items };
}

impl Strips {
    /// These bytes, in strips. A strip is shared with the other bytes where they have the same there, or with the strip in front of it
    /// where that is the same. What isn't shared stands in one new block.
    pub fn cut(alloc: Global, bytes: &[u8], other: Option<&Strips>) -> Result<Strips, AllocError>
        ensures { IfOk result (λ strips. strips ≡ bytes.now) }
    {
        let count = bytes.len().div_ceil(STRIP);
        let mut plans = Vec::with_capacity(alloc, count)?;
        let mut new = Vec::new(alloc);
        for k in 0..count {
            let piece = strip_in(bytes, STRIP * k);
            let plan = planned(piece, strip_at(other, k), plans.last(), &mut new)?;
            plans.push(plan)?;
        }
        let block = ArcSlice::from_vec(new)?;
        let strips = carried_out(alloc, plans, &block)?;
        Ok(Strips {
            strips,
            len: bytes.len(),
        })
    }

    /// These bytes, with others in place of those from this place on. The strips in which none of the others lie are shared with
    /// these bytes, and not looked at.
    pub fn with(&self, alloc: Global, at: usize, bytes: &[u8]) -> Result<Strips, AllocError>
        requires some { 0 < length bytes.now }
        requires within { at + length bytes.now ≤ length self.now }
        ensures { IfOk result (λ strips. strips ≡ take at self.now ++ bytes.now ++ drop (at + length bytes.now) self.now) }
    {
        let first = at / STRIP;
        let wide = self.widened(alloc, at, bytes)?;
        let mut plans = Vec::with_capacity(alloc, self.strips.len())?;
        let mut new = Vec::new(alloc);
        for k in 0..self.strips.len() {
            let plan = planned_with(
                &self.strips[k],
                k,
                first,
                wide.as_slice(),
                plans.last(),
                &mut new,
            )?;
            plans.push(plan)?;
        }
        let block = ArcSlice::from_vec(new)?;
        let strips = carried_out(alloc, plans, &block)?;
        Ok(Strips {
            strips,
            len: self.len,
        })
    }

    /// The same bytes, in the same strips.
    pub fn share(&self, alloc: Global) -> Result<Strips, AllocError>
        ensures { IfOk result (λ strips. strips ≡ self.now) }
    {
        let mut strips = Vec::with_capacity(alloc, self.strips.len())?;
        for strip in &self.strips {
            strips.push(strip.share()?)?;
        }
        Ok(Strips {
            strips,
            len: self.len,
        })
    }

    /// Other bytes for those from this place on, with what stands in front of them and behind them in their strips.
    fn widened(&self, alloc: Global, at: usize, bytes: &[u8]) -> Result<Vec<u8>, AllocError>
        requires some { 0 < length bytes.now }
        requires within { at + length bytes.now ≤ length self.now }
        ensures { IfOk result (λ wide. IsWide self.now at bytes.now wide.items) }
    {
        let room = bytes.len().saturating_add(2 * STRIP).min(self.len);
        let mut wide = Vec::with_capacity(alloc, room)?;
        wide.extend_from_slice(self.in_front(at))?;
        wide.extend_from_slice(bytes)?;
        wide.extend_from_slice(self.behind(at + bytes.len()))?;
        Ok(wide)
    }

    /// What the strip in which this place lies has in front of it.
    fn in_front(&self, at: usize) -> &[u8]
        requires { at < length self.now }
        ensures { result.now ≡ take (at % 1024) (drop (1024 * (at / 1024)) self.now) }
    {
        start_of(self.strips[at / STRIP].as_slice(), at % STRIP)
    }

    /// What the strip in which this place lies has from it on. Behind the last byte there is nothing.
    fn behind(&self, at: usize) -> &[u8]
        requires { at ≤ length self.now }
        ensures { result.now ≡ take (1024 - at % 1024) (drop at self.now) }
    {
        match self.strips.get(at / STRIP) {
            Some(strip) => rest_of(strip.as_slice(), at % STRIP),
            None => &[],
        }
    }

    /// How many bytes there are.
    pub fn len(&self) -> usize
        ensures { result ≡ length self.now }
    {
        self.len
    }

    /// The bytes from this place on, as far as they lie in one piece.
    pub fn piece(&self, at: usize) -> &[u8]
        requires { at < length self.now }
        ensures bytes { result.now ≡ take (length result.now) (drop at self.now) }
        ensures some { 0 < length result.now }
        ensures within { at + length result.now ≤ length self.now }
    {
        rest_of(self.strips[at / STRIP].as_slice(), at % STRIP)
    }

    /// A copy of the bytes, in one piece.
    pub fn to_vec(&self, alloc: Global) -> Result<Vec<u8>, AllocError>
        ensures { IfOk result (λ bytes. bytes.items ≡ self.now) }
    {
        self.part(alloc, 0, self.len())
    }

    /// A copy of the bytes from the one place on to the other.
    pub fn part(&self, alloc: Global, from: usize, to: usize) -> Result<Vec<u8>, AllocError>
        requires order { from ≤ to }
        requires within { to ≤ length self.now }
        ensures { IfOk result (λ bytes. bytes.items ≡ take (to - from) (drop from self.now)) }
    {
        let mut bytes = Vec::with_capacity(alloc, to - from)?;
        while from + bytes.len() < to {
            let piece = self.piece(from + bytes.len());
            bytes.extend_from_slice(start_of(piece, to - from - bytes.len()))?;
        }
        Ok(bytes)
    }
}

/// The strip of other bytes with this number, if there is one.
fn strip_at(other: Option<&Strips>, k: usize) -> Option<&Strip> {
    other?.strips.get(k)
}

/// The bytes from this place on that make up a strip.
fn strip_in(bytes: &[u8], from: usize) -> &[u8]
    requires { from ≤ length bytes.now }
    ensures { result.now ≡ take 1024 (drop from bytes.now) }
{
    start_of(rest_of(bytes, from), STRIP)
}

/// Where the bytes of this strip, which has the number `k`, are to stand once `wide` stands in place of the strips from number
/// `first` on, as far as it goes.
fn planned_with(
    strip: &Strip,
    k: usize,
    first: usize,
    wide: &[u8],
    before: Option<&Plan>,
    new: &mut Vec<u8>,
) -> Result<Plan, AllocError>
    ensures planned { IfOk result (λ plan. IsPlanned new.new.items (strip_with first wide.now k strip.now) plan) }
    ensures grows { OnOk result (Grows new.old.items new.new.items) }
{
    if k >= first && k - first < wide.len().div_ceil(STRIP) {
        return planned(
            strip_in(wide, STRIP * (k - first)),
            Some(strip),
            before,
            new,
        );
    }
    Ok(Plan::Shared(strip.share()?))
}
