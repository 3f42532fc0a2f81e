//! The runs of a backing: its entries, joined where guest memory goes on.

use std::alloc::{AllocError, Global};
use std::process::Abort;
use std::test::Fail;
use vg_backing::{Backing, Run};
use vg_formats::MemEntry;
use vg_pages::Pages;

const START: u64 = 1_048_576;

/// Entries of a page each, of these pages.
fn of_pages(alloc: Global, pages: &[u32]) -> Result<Vec<MemEntry>, AllocError> {
    let mut entries = Vec::new(alloc);
    for page in pages {
        entries.push(MemEntry {
            addr: START + 4_096 * u64::from(*page),
            length: 4_096,
        })?;
    }
    Ok(entries)
}

/// Whether a backing of these entries, of 300 pages of guest memory, has these runs: start, address and length of each.
fn have_runs(
    rt: &impl Abort,
    alloc: Global,
    entries: &[MemEntry],
    runs: &[(u64, u64, u64)],
) -> Result<bool, Fail> {
    let pages = Pages::new(alloc, 300)?;
    assert!(rt; entries.len() < 1_000);
    let backing = Backing::new(alloc, &pages, entries)?.ok_or("it lies in memory")?;
    let mut found = Vec::new(alloc);
    for run in backing.runs() {
        let Run {
            start,
            addr,
            length,
        } = *run;
        found.push((start, addr, length))?;
    }
    Ok(found.as_slice() == runs)
}

#[test]
fn entries_of_pages_in_a_row_are_one_run(rt: HostRuntime) -> Result<(), Fail> {
    let alloc = rt.alloc();
    let mut pages = Vec::new(alloc);
    for page in 0..300 {
        pages.push(page)?;
    }
    let entries = of_pages(alloc, pages.as_slice())?;
    assert!(rt; have_runs(&rt, alloc, entries.as_slice(), &[(0, START, 1_228_800)])?);
    Ok(())
}

#[test]
fn a_gap_begins_another_run(rt: HostRuntime) -> Result<(), Fail> {
    let alloc = rt.alloc();
    let entries = of_pages(alloc, &[0, 1, 3])?;
    let runs = [(0, 1_048_576, 8_192), (8_192, 1_060_864, 4_096)];
    assert!(rt; have_runs(&rt, alloc, entries.as_slice(), &runs)?);
    Ok(())
}
