//! What a shape puts into the ring and into indirect tables.

ghost use Rattle.std.specs.Prelude.{◌≡◌, ℕ, ◌+◌, ◌*◌, ◌≤◌, ◌<◌, ◌++◌, ◌∷◌, [], Some, true, length, slice_get, OnOk, IfOk, if◌then◌else◌};
ghost use Rattle.vg_chain.specs.declared.shape.Shape.TheVariants.{Bad, Mixed};
ghost use Rattle.vg_chain.specs.Space.{most_request, room_at};
ghost use Rattle.vg_chain.specs.Descriptor.{descriptor_size};
ghost use Rattle.vg_chain.specs.Made as made;
ghost use Rattle.vg_chain.specs.Made.{parts_of, inner_of, in_table, joined, last_of, table_bytes, split_bytes, packed_bytes, bytes_in, link_of, IsLinked, IsInRing, IsRequest, IsMeasured, AreTables, IsCount};

use crate::chain::ChainFault;
use crate::descriptor::{
    DESCRIPTOR_SIZE, Descriptor, INDIRECT, NEXT, WRITE, flags_of, is_writable,
};
use crate::form::Form;
use crate::part::{Extent, Part, count_parts, count_rest, part_of, rest_of};
use crate::shape::Shape;
use crate::space::{HEADER_SIZE, ROOM_OFFSET, TABLES_OFFSET};
use std::alloc::{AllocError, Global};
use vg_numbers::{put_u16, put_u32, put_u64};

/// A part's descriptor, and `next` the place of the one that comes after it, if one does.
fn descriptor_of(part: Part, more: bool, next: u16) -> Descriptor
    ensures { result ≡ (if more then joined part next else last_of part) }
{
    Descriptor {
        addr: part.addr,
        len: part.len,
        flags: flags_of(part.writes, more),
        next: if more { next } else { 0 },
    }
}

/// The same of a part, if there is one.
fn link(part: Option<Part>, more: bool, next: u16) -> Option<Descriptor>
    ensures { result ≡ link_of part more next }
{
    match part {
        None => None,
        Some(part) => Some(descriptor_of(part, more, next)),
    }
}

/// The descriptor at a place of the chain of a request in at most `most` pieces.
fn linked_at(most: u8, extent: &Extent, at: u16, next: u16) -> Option<Descriptor>
    requires some { 1 ≤ most }
    requires few { most ≤ 8 }
    requires extent { IsMeasured extent.now.request extent.now.room extent.now.base }
    ensures { IsLinked (parts_of most extent.now.request extent.now.room extent.now.base) at next result }
{
    let part = part_of(most, extent, at);
    let count = count_parts(most, extent.request, extent.room);
    let more = u32::from(at) + 1 < u32::from(count);
    link(part, more, next)
}

/// How many descriptors a table has: of all parts, or of those after the header.
fn count_inner(rest: bool, extent: &Extent) -> u16
    ensures count { result ≡ length (inner_of rest extent.now.request extent.now.room extent.now.base) }
    ensures bound { result ≤ 2 }
{
    if rest {
        count_rest(extent)
    } else {
        count_parts(1, extent.request, extent.room)
    }
}

/// The descriptor at a place of that table.
fn inner_at(rest: bool, extent: &Extent, at: u16) -> Option<Descriptor>
    requires at { at < 2 }
    requires extent { IsMeasured extent.now.request extent.now.room extent.now.base }
    ensures { result ≡ slice_get (in_table (inner_of rest extent.now.request extent.now.room extent.now.base)) at }
{
    let part = if rest {
        rest_of(extent, at)
    } else {
        part_of(1, extent, at)
    };
    let next = at + 1;
    let more = next < count_inner(rest, extent);
    link(part, more, next)
}

/// A descriptor that refers to `len` bytes of tables.
fn referring(extent: &Extent, len: u32, flags: u16, next: u16) -> Descriptor
    requires { IsMeasured extent.now.request extent.now.room extent.now.base }
    ensures { result ≡ made.referring extent.now.base len flags next }
{
    Descriptor {
        addr: extent.base + TABLES_OFFSET,
        len,
        flags,
        next,
    }
}

/// A descriptor that refers to a table of all parts, or of those after the header.
fn to_table(rest: bool, extent: &Extent, flags: u16, next: u16) -> Descriptor
    requires { IsMeasured extent.now.request extent.now.room extent.now.base }
    ensures { result ≡ made.referring extent.now.base (descriptor_size * length (in_table (inner_of rest extent.now.request extent.now.room extent.now.base))) flags next }
{
    referring(
        extent,
        DESCRIPTOR_SIZE * u32::from(count_inner(rest, extent)),
        flags,
        next,
    )
}

/// The one descriptor of a list.
fn only(at: u16, descriptor: Descriptor) -> Option<Descriptor>
    ensures { result ≡ slice_get (descriptor ∷ []) at }
{
    if at == 0 { Some(descriptor) } else { None }
}

/// One of the two descriptors of a list.
fn either(at: u16, first: Descriptor, second: Descriptor) -> Option<Descriptor>
    ensures { result ≡ slice_get (first ∷ second ∷ []) at }
{
    match at {
        0 => Some(first),
        1 => Some(second),
        _ => None,
    }
}

/// The descriptor at a place of a mixed chain.
fn mixed_at(extent: &Extent, at: u16, next: u16) -> Option<Descriptor>
    requires { IsMeasured extent.now.request extent.now.room extent.now.base }
    ensures { (q head : ℕ) → IsInRing Mixed extent.now.request extent.now.room extent.now.base q head at next result }
{
    if extent.request == 0 || count_inner(true, extent) == 0 {
        return linked_at(1, extent, at, next);
    }
    let first = Part {
        addr: extent.base,
        len: extent.request.min(HEADER_SIZE),
        writes: false,
    };
    either(
        at,
        descriptor_of(first, true, next),
        to_table(true, extent, INDIRECT, 0),
    )
}

/// The descriptor at a place of a chain with this fault.
fn bad_at(
    fault: ChainFault,
    extent: &Extent,
    size: u16,
    head: u16,
    at: u16,
    next: u16,
) -> Option<Descriptor>
    requires { IsMeasured extent.now.request extent.now.room extent.now.base }
    ensures { IsInRing (Bad fault) extent.now.request extent.now.room extent.now.base size head at next result }
{
    let request = Part {
        addr: extent.base,
        len: extent.request,
        writes: false,
    };
    match fault {
        ChainFault::Index => only(at, descriptor_of(request, true, size)),
        ChainFault::Loop => only(at, descriptor_of(request, true, head)),
        ChainFault::Nested => only(at, referring(extent, DESCRIPTOR_SIZE, INDIRECT, 0)),
        ChainFault::NextWithIndirect => either(
            at,
            to_table(false, extent, INDIRECT + NEXT, next),
            descriptor_of(Part { len: 0, ..request }, false, 0),
        ),
        ChainFault::TableLength => only(at, referring(extent, DESCRIPTOR_SIZE + 8, INDIRECT, 0)),
        ChainFault::Order => either(
            at,
            descriptor_of(room_part(extent), true, next),
            descriptor_of(request, false, 0),
        ),
        ChainFault::Range => only(at, descriptor_of(longer(request), false, 0)),
    }
}

/// The part that is the room.
fn room_part(extent: &Extent) -> Part
    requires { IsMeasured extent.now.request extent.now.room extent.now.base }
    ensures { result ≡ record { addr = room_at extent.now.base; len = extent.now.room; writes = true } }
{
    Part {
        addr: extent.base + ROOM_OFFSET,
        len: extent.room,
        writes: true,
    }
}

/// A part with one byte more.
fn longer(part: Part) -> Part
    requires { part.len ≤ most_request }
    ensures { result ≡ record part { len = part.len + 1 } }
{
    Part {
        len: part.len + 1,
        ..part
    }
}

/// Adds the bytes of a descriptor of a table in the split form.
#[tactic(auto, unfolding(crate::specs::Made::split_bytes))]
fn put_split(out: &mut Vec<u8>, descriptor: Descriptor) -> Result<(), AllocError>
    ensures { OnOk result (out.new.items ≡ out.old.items ++ split_bytes descriptor) }
{
    put_u64(out, descriptor.addr)?;
    put_u32(out, descriptor.len)?;
    put_u16(out, descriptor.flags)?;
    put_u16(out, descriptor.next)
}

/// Adds the bytes of a descriptor of a table in the packed form: its id is 0, and of its flags WRITE alone stands.
#[tactic(auto, unfolding(crate::specs::Made::packed_bytes))]
fn put_packed(out: &mut Vec<u8>, descriptor: Descriptor) -> Result<(), AllocError>
    ensures { OnOk result (out.new.items ≡ out.old.items ++ packed_bytes descriptor) }
{
    put_u64(out, descriptor.addr)?;
    put_u32(out, descriptor.len)?;
    put_u16(out, 0)?;
    put_u16(out, if is_writable(descriptor) { WRITE } else { 0 })
}

/// Adds the bytes of a descriptor of a table in this form, if there is one.
fn put(out: &mut Vec<u8>, form: Form, descriptor: Option<Descriptor>) -> Result<(), AllocError>
    ensures { OnOk result (out.new.items ≡ out.old.items ++ bytes_in form descriptor) }
{
    let Some(descriptor) = descriptor else {
        return Ok(());
    };
    match form {
        Form::Split => put_split(out, descriptor),
        Form::Packed => put_packed(out, descriptor),
    }
}

/// The bytes of a table of all parts, or of those after the header.
fn table_of(alloc: Global, form: Form, rest: bool, extent: &Extent) -> Result<Vec<u8>, AllocError>
    requires { IsMeasured extent.now.request extent.now.room extent.now.base }
    ensures { IfOk result (λ bytes. bytes.items ≡ table_bytes form (in_table (inner_of rest extent.now.request extent.now.room extent.now.base))) }
{
    let mut out = Vec::new(alloc);
    put(&mut out, form, inner_at(rest, extent, 0))?;
    put(&mut out, form, inner_at(rest, extent, 1))?;
    let _few = count_inner(rest, extent);
    Ok(out)
}

/// The bytes of the tables of a chain with this fault.
fn bad_tables(
    alloc: Global,
    form: Form,
    fault: ChainFault,
    extent: &Extent,
) -> Result<Vec<u8>, AllocError>
    requires { IsMeasured extent.now.request extent.now.room extent.now.base }
    ensures { IfOk result (λ tables. AreTables form (Bad fault) extent.now.request extent.now.room extent.now.base tables.items) }
{
    match fault {
        ChainFault::Nested => {
            let mut out = Vec::new(alloc);
            put(
                &mut out,
                form,
                Some(referring(extent, DESCRIPTOR_SIZE, INDIRECT, 0)),
            )?;
            Ok(out)
        }
        ChainFault::NextWithIndirect => table_of(alloc, form, false, extent),
        ChainFault::TableLength => vec![in alloc; 0; 2 * DESCRIPTOR_SIZE as usize],
        _ => Ok(Vec::new(alloc)),
    }
}

impl Shape {
    /// The descriptor at place `at` of those that the shape has in the ring, of a queue of this size. The
    /// head's place is `head`, and that of the next one `next`. None past the last one.
    pub fn descriptor(
        &self,
        extent: &Extent,
        size: u16,
        head: u16,
        at: u16,
        next: u16,
    ) -> Option<Descriptor>
        requires count { IsCount self.now }
        requires extent { IsMeasured extent.now.request extent.now.room extent.now.base }
        ensures { IsInRing self.now extent.now.request extent.now.room extent.now.base size head at next result }
    {
        match *self {
            Shape::Plain => linked_at(1, extent, at, next),
            Shape::Pieces { n } => linked_at(n, extent, at, next),
            Shape::Indirect => only(at, to_table(false, extent, INDIRECT, 0)),
            Shape::Mixed => mixed_at(extent, at, next),
            Shape::Bad { fault } => bad_at(fault, extent, size, head, at, next),
        }
    }

    /// The bytes of the shape's indirect tables in this form.
    pub fn tables(&self, alloc: Global, form: Form, extent: &Extent) -> Result<Vec<u8>, AllocError>
        requires { IsMeasured extent.now.request extent.now.room extent.now.base }
        ensures { IfOk result (λ tables. AreTables form self.now extent.now.request extent.now.room extent.now.base tables.items) }
    {
        match *self {
            Shape::Plain | Shape::Pieces { n: _ } => Ok(Vec::new(alloc)),
            Shape::Indirect => table_of(alloc, form, false, extent),
            Shape::Mixed => {
                if extent.request == 0 {
                    Ok(Vec::new(alloc))
                } else {
                    table_of(alloc, form, true, extent)
                }
            }
            Shape::Bad { fault } => bad_tables(alloc, form, fault, extent),
        }
    }
}
