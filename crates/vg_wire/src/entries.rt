//! The entries of guest memory that a backing lists, in their bytes (VIRTIO 1.2, 5.7.6.8).

ghost use Rattle.std.specs.Prelude.{◌≡◌, ◌+◌, ◌*◌, ◌≤◌, ◌++◌, length, IfOk, OnErr, OnOk};
ghost use Rattle.std.specs.List.{All};
ghost use Rattle.vg_list.specs.Front.{HasFront};
ghost use Rattle.vg_wire.specs.Entries as layout;
ghost use Rattle.vg_wire.specs.Entries.{entries_at, entries_bytes, entry_bytes, IsEntry};

use std::alloc::{AllocError, Global};
use vg_formats::MemEntry;
use vg_list::Seq;
use vg_numbers::{put_u32, put_u64, u32_at, u64_at};

/// Ranges of guest memory, in the order in which they make up a backing.
pub type Entries = Seq<MemEntry>;

/// The entry whose 16 bytes stand from place `at`. Padding is not looked at.
fn entry_at(bytes: &[u8], at: usize) -> MemEntry
    requires { at + 16 ≤ length bytes.now }
    ensures { result ≡ layout.entry_at at bytes.now }
{
    MemEntry {
        addr: u64_at(bytes, at),
        length: u32_at(bytes, at + 8),
    }
}

/// The entries, as many as `count`, that stand one after another from place `at`.
pub fn read_entries(
    alloc: Global,
    bytes: &[u8],
    at: usize,
    count: usize,
) -> Result<Entries, AllocError>
    requires { at + 16 * count ≤ length bytes.now }
    ensures entries { IfOk result (λ entries. entries ≡ entries_at at count bytes.now) }
    ensures count { IfOk result (λ entries. length entries ≡ count) }
{
    let mut entries = Vec::with_capacity(alloc, count)?;
    for place in 0..count {
        entries.push(entry_at(bytes, at + 16 * place))?;
    }
    Ok(Seq::from_vec(entries))
}

/// Adds the 16 bytes of an entry, with padding 0.
#[tactic(auto, unfolding(crate::specs::Entries::entry_bytes), using(vg_list::proofs::FrontLemmas::fronts))]
fn put_entry(out: &mut Vec<u8>, entry: MemEntry) -> Result<(), AllocError>
    ensures bytes { OnOk result (out.new.items ≡ out.old.items ++ entry_bytes entry) }
    ensures err { OnErr result (HasFront out.old.items out.new.items (entry_bytes entry)) }
    ensures fits { IsEntry entry }
{
    put_u64(out, entry.addr)?;
    put_u32(out, entry.length)?;
    put_u32(out, 0)
}

/// Adds the bytes of these entries. For want of memory a front of them is added.
pub fn put_entries(out: &mut Vec<u8>, entries: &[MemEntry]) -> Result<(), AllocError>
    ensures bytes { OnOk result (out.new.items ≡ out.old.items ++ entries_bytes entries.now) }
    ensures err { OnErr result (HasFront out.old.items out.new.items (entries_bytes entries.now)) }
    ensures fit { OnOk result (All IsEntry entries.now) }
{
    for entry in entries {
        put_entry(out, *entry)?;
    }
    Ok(())
}
