//! Descriptors (VIRTIO 1.2, 2.7.5 and 2.8), and how they stand in an indirect table of either form.

ghost use Rattle.std.specs.Prelude.{◌≡◌, ◌+◌, ◌*◌, ◌^◌, ◌<◌, ◌≤◌, length, IfOk};
ghost use Rattle.vg_chain.specs.declared.form.Form.TheVariants.{Packed};
ghost use Rattle.vg_chain.specs.Descriptor as layout;
ghost use Rattle.vg_chain.specs.Descriptor.{descriptor_size, descriptors_in, packed_in, table_in};

use crate::form::Form;
use std::alloc::{AllocError, Global};
use vg_numbers::{u16_at, u32_at, u64_at};

/// The flag that says that another descriptor comes next.
pub(crate) const NEXT: u16 = 1;

/// The flag that says that the device writes.
pub(crate) const WRITE: u16 = 2;

/// The flag that says that the descriptor refers to a table.
pub(crate) const INDIRECT: u16 = 4;

/// How many bytes a descriptor has in memory.
pub(crate) const DESCRIPTOR_SIZE: u32 = 16;

/// A descriptor: an entry of the ring's table, or of an indirect one.
#[derive(Clone, Copy, Debug, PartialEq, Eq)]
pub struct Descriptor {
    /// The address of its first byte.
    pub addr: u64,
    /// Its length in bytes.
    pub len: u32,
    /// `NEXT`, `WRITE` and `INDIRECT`, each where it is set.
    pub flags: u16,
    /// The place of the descriptor that comes next, where NEXT is set.
    pub next: u16,
}

/// Bytes that lie one after another.
#[derive(Clone, Copy, Debug, PartialEq, Eq)]
pub struct Segment {
    /// The address of the first byte.
    pub addr: u64,
    /// How many there are.
    pub len: u32,
}

/// Whether a flag is set.
fn has_flag(flag: u16, descriptor: Descriptor) -> bool
    requires { 1 ≤ flag }
    ensures { result ≡ layout.has_flag flag descriptor }
{
    descriptor.flags / flag % 2 == 1
}

/// Whether NEXT is set.
pub(crate) fn has_next(descriptor: Descriptor) -> bool
    ensures { result ≡ layout.has_next descriptor }
{
    has_flag(NEXT, descriptor)
}

/// Whether WRITE is set.
pub(crate) fn is_writable(descriptor: Descriptor) -> bool
    ensures { result ≡ layout.is_writable descriptor }
{
    has_flag(WRITE, descriptor)
}

/// Whether INDIRECT is set.
pub(crate) fn is_indirect(descriptor: Descriptor) -> bool
    ensures { result ≡ layout.is_indirect descriptor }
{
    has_flag(INDIRECT, descriptor)
}

/// The flags of a descriptor that refers to no table.
pub(crate) fn flags_of(writes: bool, more: bool) -> u16
    ensures { result ≡ layout.flags_of writes more }
{
    let write = if writes { WRITE } else { 0 };
    if more { write + NEXT } else { write }
}

/// The descriptor whose bytes stand from place `at`.
fn descriptor_at(bytes: &[u8], at: usize) -> Descriptor
    requires { at + descriptor_size ≤ length bytes.now }
    ensures { result ≡ layout.descriptor_at at bytes.now }
{
    Descriptor {
        addr: u64_at(bytes, at),
        len: u32_at(bytes, at + 8),
        flags: u16_at(bytes, at + 12),
        next: u16_at(bytes, at + 14),
    }
}

/// The descriptors, as many as `count`, at the front of these bytes.
fn read_descriptors(
    alloc: Global,
    bytes: &[u8],
    count: usize,
) -> Result<Vec<Descriptor>, AllocError>
    requires { descriptor_size * count ≤ length bytes.now }
    ensures descriptors { IfOk result (λ table. table.items ≡ descriptors_in count bytes.now) }
    ensures count { IfOk result (λ table. length table.items ≡ count) }
{
    let mut table = Vec::with_capacity(alloc, count)?;
    for place in 0..count {
        table.push(descriptor_at(bytes, DESCRIPTOR_SIZE as usize * place))?;
    }
    Ok(table)
}

/// The descriptor at this place of a packed table of `count`. Of its flags WRITE alone counts, and the id doesn't: the
/// descriptors follow each other to the table's end (VIRTIO 1.2, 2.8.7).
fn packed_at(bytes: &[u8], count: usize, place: usize) -> Descriptor
    requires bytes { descriptor_size * count ≤ length bytes.now }
    requires place { place < count }
    requires count { count ≤ 2 ^ 16 }
    ensures { result ≡ layout.packed_at count place bytes.now }
{
    let at = DESCRIPTOR_SIZE as usize * place;
    let writes = u16_at(bytes, at + 14) / WRITE % 2 == 1;
    let more = place + 1 < count;
    Descriptor {
        addr: u64_at(bytes, at),
        len: u32_at(bytes, at + 8),
        flags: flags_of(writes, more),
        next: if more { (place + 1) as u16 } else { 0 },
    }
}

/// The descriptors, as many as `count`, of the packed table at the front of these bytes.
fn read_packed(alloc: Global, bytes: &[u8], count: usize) -> Result<Vec<Descriptor>, AllocError>
    requires bytes { descriptor_size * count ≤ length bytes.now }
    requires count { count ≤ 2 ^ 16 }
    ensures descriptors { IfOk result (λ table. table.items ≡ packed_in count bytes.now) }
    ensures count { IfOk result (λ table. length table.items ≡ count) }
{
    let mut table = Vec::with_capacity(alloc, count)?;
    for place in 0..count {
        table.push(packed_at(bytes, count, place))?;
    }
    Ok(table)
}

/// The descriptors, as many as `count`, of the table of this form at the front of these bytes.
pub(crate) fn read_table(
    alloc: Global,
    form: Form,
    bytes: &[u8],
    count: usize,
) -> Result<Vec<Descriptor>, AllocError>
    requires bytes { descriptor_size * count ≤ length bytes.now }
    requires count { form ≡ Packed → count ≤ 2 ^ 16 }
    ensures descriptors { IfOk result (λ table. table.items ≡ table_in form count bytes.now) }
    ensures count { IfOk result (λ table. length table.items ≡ count) }
{
    match form {
        Form::Split => read_descriptors(alloc, bytes, count),
        Form::Packed => read_packed(alloc, bytes, count),
    }
}
