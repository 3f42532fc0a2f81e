//! The runs of a backing: its entries, joined where guest memory goes on.

ghost use Rattle.std.specs.Prelude.{◌≡◌, ◌<◌, ◌≤◌, ◌^◌, All, IfOk, length};
ghost use Rattle.vg_backing.specs.Backing.{total};
ghost use Rattle.vg_backing.specs.Fits.{EndsInRange};
ghost use Rattle.vg_backing.specs.Runs.{run_at, runs_of};

use std::alloc::{AllocError, Global};
use vg_formats::MemEntry;

/// A range of guest memory that has bytes of a backing: it begins at the address `addr` and has `length` bytes, and `start` bytes of
/// the backing stand before them.
#[derive(Clone, Copy, Debug)]
pub struct Run {
    pub start: u64,
    pub addr: u64,
    pub length: u64,
}

/// The runs of these entries, and how many bytes they have.
pub(crate) fn table_of(alloc: Global, entries: &[MemEntry]) -> Result<(Vec<Run>, u64), AllocError>
    requires some { 0 < length entries.now }
    requires number { length entries.now < 2 ^ 32 }
    requires ends { All EndsInRange entries.now }
    ensures runs { IfOk result (λ table. table.0.items ≡ runs_of entries.now) }
    ensures length { IfOk result (λ table. table.1 ≡ total entries.now) }
    ensures small { IfOk result (λ table. table.1 < 2 ^ 64) }
{
    let mut runs = Vec::new(alloc);
    let mut run = run_at(0, &entries[0]);
    for i in 1..entries.len() {
        let next = run_at(run.start + run.length, &entries[i]);
        if run.addr + run.length == next.addr {
            run.length += next.length;
        } else {
            runs.push(run)?;
            run = next;
        }
    }
    runs.push(run)?;
    Ok((runs, run.start + run.length))
}

/// The run of an entry alone.
fn run_at(start: u64, entry: &MemEntry) -> Run
    ensures is { result ≡ run_at start entry.now }
    ensures small { result.length ≤ 4294967295 }
{
    Run {
        start,
        addr: entry.addr,
        length: u64::from(entry.length),
    }
}
