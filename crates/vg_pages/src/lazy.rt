//! Bytes of a fixed number that take no time and no pages of the host before they are written.

ghost use Rattle.std.specs.Prelude.{◌≡◌, true, ◌+◌, ◌-◌, ◌≤◌, ◌++◌, IfOk, length, min, take, drop, replicate, vec_capacity};
ghost use Rattle.vg_pages.specs.Memory.{padded};

use std::alloc::{AllocError, Global};
use std::marker::Model;

/// Bytes, at first all 0. Memory for all of them is taken when they are made; those behind the last that was written
/// aren't touched, and are 0.
#[derive(Debug, Drop)]
pub(crate) struct LazyBytes {
    /// The bytes up to the last that was written.
    front: Vec<u8>,
    /// How many bytes there are.
    size: usize,
}

impl Model for LazyBytes {
    ghost use Rattle.std.specs.Prelude.{ℕ, List, ◌≤◌, length, vec_capacity};
    ghost use Rattle.vg_pages.specs.Memory.{padded};

    ghost Value = { List ℕ };

    ghost view = { λ b. padded b.size b.front.items };

    ghost invariant = { λ b. (length b.front.items ≤ b.size) × (b.size ≤ vec_capacity b.front) };
}

impl LazyBytes {
    /// So many bytes.
    pub(crate) fn new(alloc: Global, size: usize) -> Result<LazyBytes, AllocError>
        ensures { IfOk result (λ bytes. bytes ≡ replicate size 0) }
    {
        let front = Vec::with_capacity(alloc, size)?;
        Ok(LazyBytes { front, size })
    }

    /// How many bytes there are.
    pub(crate) fn len(&self) -> usize
        ensures { result ≡ length self.now }
    {
        self.size
    }

    /// Copies the bytes from `start` on into `out`, as many as it has.
    pub(crate) fn read(&self, start: usize, out: &mut [u8])
        requires { start + length out.old ≤ length self.now }
        ensures { out.new ≡ take (length out.old) (drop start self.now) }
    {
        read_padded(self.front.as_slice(), self.size, start, out);
    }

    /// Whether the bytes from `start` on lie behind all that was written, and so are 0.
    pub(crate) fn is_zero_from(&self, start: usize) -> bool
        ensures { result ≡ true → drop start self.now ≡ replicate (length self.now - start) 0 }
    {
        self.front.len() <= start
    }

    /// Writes these bytes from `start` on.
    pub(crate) fn write(&mut self, start: usize, bytes: &[u8])
        requires { start + length bytes.now ≤ length self.old }
        ensures { self.new ≡ take start self.old ++ bytes.now ++ drop (start + length bytes.now) self.old }
    {
        grow(&mut self.front, start + bytes.len());
        overwrite(&mut self.front, start, bytes);
    }

    /// Writes zeros from `start` on, so many.
    pub(crate) fn zero(&mut self, start: usize, count: usize)
        requires { start + count ≤ length self.old }
        ensures { self.new ≡ take start self.old ++ replicate count 0 ++ drop (start + count) self.old }
    {
        let kept = self.front.len();
        if start < kept {
            let end = kept.min(start + count);
            zero_from_to(&mut self.front, start, end);
        }
    }
}

/// Adds zeros until there are at least `end` bytes. There is room, since memory for all was taken.
fn grow(front: &mut Vec<u8>, end: usize)
    requires { end ≤ vec_capacity front.old }
    ensures bytes { front.new.items ≡ front.old.items ++ replicate (end - length front.old.items) 0 }
    ensures room { vec_capacity front.old ≤ vec_capacity front.new }
{
    if front.len() < end {
        front.resize(end, 0).unwrap();
    }
}

/// Copies bytes from `start` on out of `front` and the zeros behind it, `size` bytes in all.
fn read_padded(front: &[u8], size: usize, start: usize, out: &mut [u8])
    requires inside { start + length out.old ≤ size }
    requires front { length front.now ≤ size }
    ensures { out.new ≡ take (length out.old) (drop start (padded size front.now)) }
{
    fill_from(&front[start.min(front.len())..], out);
}

/// Fills `out` with these bytes, and with zeros where there are fewer.
fn fill_from(bytes: &[u8], out: &mut [u8])
    ensures { out.new ≡ take (min (length bytes.now) (length out.old)) bytes.now
        ++ replicate (length out.old - min (length bytes.now) (length out.old)) 0 }
{
    let kept = bytes.len().min(out.len());
    let (front, rest) = out.split_at_mut(kept);
    front.copy_from_slice(&bytes[..kept]);
    rest.fill(0);
}

pub(crate) fn overwrite(front: &mut Vec<u8>, start: usize, bytes: &[u8])
    requires { start + length bytes.now ≤ length front.old.items }
    ensures bytes { front.new.items ≡ take start front.old.items ++ bytes.now ++ drop (start + length bytes.now) front.old.items }
    ensures room { vec_capacity front.old ≤ vec_capacity front.new }
{
    overwrite_part(front.as_mut_slice(), start, bytes);
}

fn zero_from_to(front: &mut Vec<u8>, start: usize, end: usize)
    requires order { start ≤ end }
    requires inside { end ≤ length front.old.items }
    ensures bytes { front.new.items ≡ take start front.old.items ++ replicate (end - start) 0 ++ drop end front.old.items }
    ensures room { vec_capacity front.old ≤ vec_capacity front.new }
{
    zero_part(front.as_mut_slice(), start, end);
}

pub(crate) fn overwrite_part(all: &mut [u8], start: usize, bytes: &[u8])
    requires { start + length bytes.now ≤ length all.old }
    ensures { all.new ≡ take start all.old ++ bytes.now ++ drop (start + length bytes.now) all.old }
{
    let end = start + bytes.len();
    all[start..end].copy_from_slice(bytes);
}

fn zero_part(all: &mut [u8], start: usize, end: usize)
    requires order { start ≤ end }
    requires inside { end ≤ length all.old }
    ensures { all.new ≡ take start all.old ++ replicate (end - start) 0 ++ drop end all.old }
{
    all[start..end].fill(0);
}
