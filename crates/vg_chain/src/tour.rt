//! The walk of a chain (VIRTIO 1.2, 2.7.5, 2.7.5.3 and 2.8.7).

ghost use Rattle.std.specs.Prelude.{◌≡◌, ◌+◌, ◌-◌, ◌*◌, ◌/◌, ◌^◌, ◌<◌, ◌≤◌, ◌==◌, nat_lt, nat_le, true, false, Some, None, [], ◌++◌, length, slice_get, slice_set, slice_index_or, replicate, IfOk, OnOk, IsTrue};
ghost use Rattle.vg_chain.specs.declared.form.Form.TheVariants.{Packed};
ghost use Rattle.vg_chain.specs.Space.{tables_at};
ghost use Rattle.vg_chain.specs.Descriptor as layout;
ghost use Rattle.vg_chain.specs.Descriptor.{descriptor_size};
ghost use Rattle.vg_chain.specs.Memory.{memory, lies_in, table_of};
ghost use Rattle.vg_chain.specs.Walk.{Walks, read_of, written_of};
ghost use Rattle.vg_chain.specs.TourWithin.{table_now};

use crate::chain::{Chain, ChainFault, Parts};
use crate::descriptor::{
    DESCRIPTOR_SIZE, Descriptor, Segment, has_next, is_indirect, is_writable, read_table,
};
use crate::fault::fault_of;
use crate::space::TABLES_OFFSET;
use smallvec::SmallVec;
use std::alloc::{AllocError, Global};
use vg_list::Seq;

/// How far a walk has come.
#[derive(Drop)]
struct Tour {
    /// The indirect table, once the walk is inside of one.
    inner: Vec<Descriptor>,
    inside: bool,
    /// The place that is visited now.
    at: usize,
    /// Which places of the table were visited before.
    marks: SmallVec<bool, 64>,
    readable: Vec<Segment>,
    writable: Vec<Segment>,
}

impl Tour {
    /// A walk that stands at the head, in a table of this size.
    fn new(alloc: Global, size: usize, head: u16) -> Result<Tour, AllocError>
        ensures place { IfOk result (λ tour. (tour.inside ≡ false) × (tour.at ≡ head)) }
        ensures marks { IfOk result (λ tour. tour.marks.items ≡ replicate size false) }
        ensures segments { IfOk result (λ tour. (tour.readable.items ≡ []) × (tour.writable.items ≡ [])) }
    {
        Ok(Tour {
            inner: Vec::new(alloc),
            inside: false,
            at: head as usize,
            marks: SmallVec::from_elem(alloc, false, size)?,
            readable: Vec::new(alloc),
            writable: Vec::new(alloc),
        })
    }

    /// The descriptor that is visited now.
    fn here(&self, ring: &[Descriptor]) -> Option<Descriptor>
        ensures { result ≡ slice_get (table_now ring.now self.now.inner.items self.now.inside) self.now.at }
    {
        if self.inside {
            self.inner.get(self.at).copied()
        } else {
            ring.get(self.at).copied()
        }
    }

    /// Whether the place that is visited now was visited before.
    fn is_met(&self) -> bool
        ensures { result ≡ slice_index_or self.now.marks.items self.now.at false }
    {
        self.marks.as_slice().get(self.at).copied().unwrap_or(false)
    }

    /// Whether a readable segment was visited before.
    fn has_read(&self) -> bool
        ensures { result ≡ nat_lt 0 (length self.now.readable.items) }
    {
        !self.readable.is_empty()
    }

    /// Whether a writable segment was visited before.
    fn has_written(&self) -> bool
        ensures { result ≡ nat_lt 0 (length self.now.writable.items) }
    {
        !self.writable.is_empty()
    }

    /// Adds the segment of a descriptor.
    fn add(&mut self, descriptor: Descriptor) -> Result<(), AllocError>
        ensures readable { OnOk result (self.new.readable.items ≡ self.old.readable.items ++ read_of (Some descriptor)) }
        ensures writable { OnOk result (self.new.writable.items ≡ self.old.writable.items ++ written_of (Some descriptor)) }
        ensures rest { OnOk result (self.new ≡ record self.old { readable = self.new.readable; writable = self.new.writable }) }
    {
        let segment = Segment {
            addr: descriptor.addr,
            len: descriptor.len,
        };
        if is_indirect(descriptor) {
            return Ok(());
        }
        if is_writable(descriptor) {
            self.writable.push(segment)?;
        } else {
            self.readable.push(segment)?;
        }
        Ok(())
    }

    /// Goes on to the next place of the same table.
    fn pass(&mut self, descriptor: Descriptor) -> Result<(), AllocError>
        requires { self.old.at < length self.old.marks.items }
        ensures readable { OnOk result (self.new.readable.items ≡ self.old.readable.items ++ read_of (Some descriptor)) }
        ensures writable { OnOk result (self.new.writable.items ≡ self.old.writable.items ++ written_of (Some descriptor)) }
        ensures marks { OnOk result (self.new.marks.items ≡ slice_set self.old.marks.items self.old.at true) }
        ensures place { OnOk result ((self.new.inside ≡ self.old.inside) × (self.new.inner ≡ self.old.inner) × (self.new.at ≡ descriptor.next)) }
    {
        self.add(descriptor)?;
        let at = self.at;
        self.marks.as_mut_slice()[at] = true;
        self.at = descriptor.next as usize;
        Ok(())
    }

    /// Goes on at the front of the table to which the descriptor refers.
    fn enter(
        &mut self,
        alloc: Global,
        parts: &Parts,
        descriptor: Descriptor,
    ) -> Result<(), AllocError>
        requires place { IsTrue (lies_in (tables_at parts.now.base) (length parts.now.tables.now) descriptor.addr descriptor.len) }
        requires count { parts.now.form ≡ Packed → descriptor.len / descriptor_size ≤ 2 ^ 16 }
        ensures segments { OnOk result ((self.new.readable.items ≡ self.old.readable.items) × (self.new.writable.items ≡ self.old.writable.items)) }
        ensures marks { OnOk result (self.new.marks.items ≡ replicate (descriptor.len / descriptor_size) false) }
        ensures table { OnOk result (self.new.inner.items ≡ table_of (memory parts.now.form parts.now.base parts.now.request parts.now.room parts.now.tables.now) descriptor) }
        ensures count { OnOk result (length self.new.inner.items ≡ descriptor.len / descriptor_size) }
        ensures place { OnOk result ((self.new.inside ≡ true) × (self.new.at ≡ 0)) }
    {
        let count = (descriptor.len / DESCRIPTOR_SIZE) as usize;
        let from = (descriptor.addr - parts.base - TABLES_OFFSET) as usize;
        self.inner = read_table(alloc, parts.form, &parts.tables[from..], count)?;
        self.marks = SmallVec::from_elem(alloc, false, count)?;
        self.inside = true;
        self.at = 0;
        Ok(())
    }

    /// The chain of the segments that were added.
    fn into_chain(self) -> Chain
        ensures readable { result.readable ≡ self.readable.items }
        ensures writable { result.writable ≡ self.writable.items }
    {
        Chain {
            readable: Seq::from_vec(self.readable),
            writable: Seq::from_vec(self.writable),
        }
    }
}

/// Walks the chain that begins at the head in the ring's table, which has as many descriptors as the
/// queue's size. A chain ends with a descriptor without NEXT, in an indirect table if it enters one. In the packed form the table
/// is one in which the descriptors of a chain were linked as they follow each other in the ring.
pub fn walk(
    alloc: Global,
    table: &[Descriptor],
    head: u16,
    parts: &Parts,
) -> Result<Result<Chain, ChainFault>, AllocError>
    requires { parts.now.form ≡ Packed → length table.now ≤ 2 ^ 16 }
    ensures { IfOk result (λ walked. Walks (memory parts.now.form parts.now.base parts.now.request parts.now.room parts.now.tables.now) table.now head walked) }
{
    let mut tour = Tour::new(alloc, table.len(), head)?;
    loop {
        let Some(descriptor) = tour.here(table) else {
            return Ok(Err(ChainFault::Index));
        };
        let read = tour.has_read();
        let wrote = tour.has_written();
        let met = tour.is_met();
        if let Some(fault) = fault_of(
            parts,
            table.len(),
            tour.inside,
            met,
            read,
            wrote,
            descriptor,
        ) {
            return Ok(Err(fault));
        }
        if is_indirect(descriptor) {
            tour.enter(alloc, parts, descriptor)?;
        } else if has_next(descriptor) {
            tour.pass(descriptor)?;
        } else {
            tour.add(descriptor)?;
            return Ok(Ok(tour.into_chain()));
        }
    }
}
