//! What is lent of guest memory and of resources.

use crate::transfers::numbered;
use std::alloc::{AllocError, Global};
use std::process::Abort;
use std::test::Fail;
use vg_backing::Backing;
use vg_formats::MemEntry;
use vg_resource::Resources;

/// The first address of page 2.
const PAGE_2: u64 = 1_048_576 + 2 * 4_096;

/// The last two bytes of page 1 and the first two of page 2, lent before others are written over page 2.
fn lent_before_a_write(rt: &impl Abort, alloc: Global) -> Result<[u8; 4], Fail> {
    let mut pages = numbered(rt, alloc)?;
    let entries = [MemEntry {
        addr: PAGE_2 - 2,
        length: 4,
    }];
    let backing = Backing::new(alloc, &pages, entries.as_slice())?.ok_or("it lies in memory")?;
    assert!(rt; backing.length() == 4);
    let mut lent = backing.lend(alloc, &pages, 0, 4)?;
    assert!(rt; pages.holds(PAGE_2, 2));
    pages.write(PAGE_2, &[8, 8]);
    let mut out = [0; 4];
    lent.read(&mut out);
    Ok(out)
}

#[test]
fn what_is_lent_stays_as_it_was(rt: HostRuntime) -> Result<(), Fail> {
    let out = lent_before_a_write(&rt, rt.alloc())?;
    assert!(rt; out == [1, 0, 2, 0]);
    Ok(())
}

/// Of a resource of two pixels, whether its pixels are lent once, a second time, and once more after they were brought back.
fn lent_in_turn(alloc: Global) -> Result<[bool; 3], AllocError> {
    let mut resources = Resources::new(alloc);
    let _ = resources.create(alloc, 1, 2, 1, 1)?;
    let Some(pixels) = resources.lend(1) else {
        return Ok([false; 3]);
    };
    let again = resources.lend(1).is_some();
    resources.restore(1, pixels);
    Ok([true, again, resources.lend(1).is_some()])
}

#[test]
fn pixels_are_lent_once_until_they_are_back(rt: HostRuntime) -> Result<(), Fail> {
    let lent = lent_in_turn(rt.alloc())?;
    assert!(rt; lent == [true, false, true]);
    Ok(())
}
