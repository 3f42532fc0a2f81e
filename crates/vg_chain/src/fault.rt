//! The first fault of a descriptor that a walk visits.

ghost use Rattle.std.specs.Prelude.{◌≡◌, ◌+◌, ◌*◌, Some, length};
ghost use Rattle.vg_chain.specs.Fault as rule;
ghost use Rattle.vg_chain.specs.Memory as range;
ghost use Rattle.vg_chain.specs.Memory.{memory};

use crate::chain::{ChainFault, Parts};
use crate::descriptor::{DESCRIPTOR_SIZE, Descriptor, has_next, is_indirect, is_writable};
use crate::form::Form;
use crate::space::{ROOM_OFFSET, TABLES_OFFSET};

/// Whether the length is none that a table in a queue of this size may have.
fn is_bad_length(size: usize, descriptor: Descriptor) -> bool
    ensures { result ≡ rule.is_bad_length size descriptor }
{
    descriptor.len == 0
        || descriptor.len % DESCRIPTOR_SIZE != 0
        || u128::from(descriptor.len) > u128::from(DESCRIPTOR_SIZE) * (size as u128)
}

/// Whether the descriptor's bytes lie in the `size` bytes that begin `offset` above the base.
fn lies_in(base: u64, offset: u64, size: usize, descriptor: Descriptor) -> bool
    ensures { result ≡ range.lies_in (base + offset) size descriptor.addr descriptor.len }
{
    let start = u128::from(base) + u128::from(offset);
    let addr = u128::from(descriptor.addr);
    start <= addr && addr + u128::from(descriptor.len) <= start + (size as u128)
}

/// Whether the descriptor stands in a list. `behind` says that others stand before it.
fn is_listed(form: Form, behind: bool, descriptor: Descriptor) -> bool
    ensures { result ≡ rule.is_listed form behind descriptor }
{
    match form {
        Form::Split => has_next(descriptor),
        Form::Packed => has_next(descriptor) || behind,
    }
}

/// Whether what the descriptor refers to is there.
fn is_in_range(parts: &Parts, descriptor: Descriptor) -> bool
    ensures { result ≡ range.is_in_range (memory parts.now.form parts.now.base parts.now.request parts.now.room parts.now.tables.now) descriptor }
{
    if is_indirect(descriptor) {
        lies_in(parts.base, TABLES_OFFSET, parts.tables.len(), descriptor)
    } else if is_writable(descriptor) {
        lies_in(parts.base, ROOM_OFFSET, parts.room as usize, descriptor)
    } else {
        lies_in(parts.base, 0, parts.request as usize, descriptor)
    }
}

/// The first fault of a descriptor, if it has one. `size` is the queue's, `inside` says that it stands
/// in an indirect table, `met` that it was visited before, `read` that a readable segment was, `wrote` that a writable one was.
pub(crate) fn fault_of(
    parts: &Parts,
    size: usize,
    inside: bool,
    met: bool,
    read: bool,
    wrote: bool,
    descriptor: Descriptor,
) -> Option<ChainFault>
    ensures { result ≡ rule.fault_of (memory parts.now.form parts.now.base parts.now.request parts.now.room parts.now.tables.now) size inside met read wrote (Some descriptor) }
{
    let indirect = is_indirect(descriptor);
    if met {
        Some(ChainFault::Loop)
    } else if indirect && inside {
        Some(ChainFault::Nested)
    } else if indirect && is_listed(parts.form, read || wrote, descriptor) {
        Some(ChainFault::NextWithIndirect)
    } else if indirect && is_bad_length(size, descriptor) {
        Some(ChainFault::TableLength)
    } else if !indirect && !is_writable(descriptor) && wrote {
        Some(ChainFault::Order)
    } else if !is_in_range(parts, descriptor) {
        Some(ChainFault::Range)
    } else {
        None
    }
}
