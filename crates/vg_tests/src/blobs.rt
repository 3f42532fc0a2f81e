//! Blobs of scattered pages, and each limit of one, met and passed.

ghost use Rattle.std.specs.Prelude.{All, IfOk};
ghost use Rattle.vg_blob.specs.Blobs.{IsHeld};

use crate::transfers::{falling, numbered};
use std::alloc::Global;
use std::process::Abort;
use std::test::Fail;
use vg_blob::Blobs;
use vg_formats::MemEntry;
use vg_pages::Pages;
use vg_wire::kinds::{ERR_INVALID_PARAMETER, ERR_INVALID_RESOURCE_ID};

/// What a blob is made of: its id, memory, flags and size, and entries (how many, and of how many bytes each).
type Made = (u32, u32, u32, u64, (u32, u32));

/// A blob, the code of its refusal, and else how many bytes it has, and two of them, from a place on.
type Case = (Made, Option<u32>, usize, usize, (Option<u8>, Option<u8>));

const NO_BYTES: (Option<u8>, Option<u8>) = (None, None);

/// The entries fall from the end of memory of 300 pages, so that the first bytes of a blob are those of page 299, 43 and 1,
/// which are its last ones too.
static CASES: [Case; 19] = [
    ((1, 1, 0, 1, (1, 4_096)), None, 1, 0, (Some(43), None)),
    (
        (9, 1, 7, 4_096, (1, 4_096)),
        None,
        4_096,
        4_094,
        (Some(43), Some(1)),
    ),
    (
        (1, 1, 2, 4_097, (2, 4_096)),
        None,
        4_097,
        4_095,
        (Some(1), Some(42)),
    ),
    (
        (1, 1, 0, 1_228_800, (300, 4_096)),
        None,
        1_228_800,
        1_224_702,
        (Some(1), Some(0)),
    ),
    (
        (1, 1, 0, 4_095, (2_048, 2)),
        None,
        4_095,
        4_094,
        (Some(43), None),
    ),
    ((1, 1, 0, 3, (3, 1)), None, 3, 0, (Some(1), Some(43))),
    (
        (4_294_967_295, 1, 0, 1, (1, 1)),
        None,
        1,
        0,
        (Some(1), None),
    ),
    (
        (0, 1, 0, 1, (1, 4_096)),
        Some(ERR_INVALID_RESOURCE_ID),
        0,
        0,
        NO_BYTES,
    ),
    (
        (0, 2, 8, 0, (0, 0)),
        Some(ERR_INVALID_RESOURCE_ID),
        0,
        0,
        NO_BYTES,
    ),
    (
        (1, 0, 0, 1, (1, 4_096)),
        Some(ERR_INVALID_PARAMETER),
        0,
        0,
        NO_BYTES,
    ),
    (
        (1, 2, 0, 1, (1, 4_096)),
        Some(ERR_INVALID_PARAMETER),
        0,
        0,
        NO_BYTES,
    ),
    (
        (1, 1, 8, 1, (1, 4_096)),
        Some(ERR_INVALID_PARAMETER),
        0,
        0,
        NO_BYTES,
    ),
    (
        (1, 1, 0, 0, (1, 4_096)),
        Some(ERR_INVALID_PARAMETER),
        0,
        0,
        NO_BYTES,
    ),
    (
        (1, 1, 0, 1, (0, 4_096)),
        Some(ERR_INVALID_PARAMETER),
        0,
        0,
        NO_BYTES,
    ),
    (
        (1, 1, 0, 1, (1, 0)),
        Some(ERR_INVALID_PARAMETER),
        0,
        0,
        NO_BYTES,
    ),
    (
        (1, 1, 0, 1, (301, 4_096)),
        Some(ERR_INVALID_PARAMETER),
        0,
        0,
        NO_BYTES,
    ),
    (
        (1, 1, 0, 4_097, (1, 4_096)),
        Some(ERR_INVALID_PARAMETER),
        0,
        0,
        NO_BYTES,
    ),
    (
        (1, 1, 0, 1_228_801, (300, 4_096)),
        Some(ERR_INVALID_PARAMETER),
        0,
        0,
        NO_BYTES,
    ),
    (
        (1, 1, 0, 18_446_744_073_709_551_615, (300, 4_096)),
        Some(ERR_INVALID_PARAMETER),
        0,
        0,
        NO_BYTES,
    ),
];

/// The first byte of guest memory.
static FIRST_BYTE: [MemEntry; 1] = [MemEntry {
    addr: 1_048_576,
    length: 1,
}];

/// Blobs after this one was to be made, and the code of its refusal.
fn made(
    rt: &impl Abort,
    alloc: Global,
    pages: &Pages,
    blob: &Made,
    entries: &[MemEntry],
) -> Result<(Blobs, Option<u32>), Fail>
    ensures { IfOk result (λ made. All (IsHeld pages.now) made.0) }
{
    assert!(rt; entries.len() < 3_000);
    let (id, mem, flags, size, _) = *blob;
    let mut blobs = Blobs::new(alloc);
    let done = blobs.create(alloc, pages, id, mem, flags, size, entries)?;
    Ok((blobs, done.err()))
}

/// Compares what a case comes to with what it has to.
fn compare(rt: &impl Abort, alloc: Global, pages: &Pages, case: &Case) -> Result<(), Fail> {
    let (blob, refusal, size, place, bytes) = case;
    let (id, _, flags, wanted, (count, length)) = blob;
    let entries = falling(alloc, *count, *length)?;
    let (blobs, code) = made(rt, alloc, pages, blob, entries.as_slice())?;
    let surface = blobs.surface(alloc, pages, *id)?.unwrap_or(Vec::new(alloc));
    let next = place.saturating_add(1);
    let found = (surface.get(*place).copied(), surface.get(next).copied());
    assert!(rt;
        code == *refusal && surface.len() == *size && found == *bytes,
        "{wanted} bytes of {count} entries, flags {flags}: {code:?} {found:?}"
    );
    assert!(rt; blobs.has(*id) == refusal.is_none());
    assert!(rt; blobs.size(*id).unwrap_or(0) == *size as u64);
    Ok(())
}

#[test]
fn a_blob_is_the_first_bytes_of_its_entries(rt: HostRuntime) -> Result<(), Fail> {
    let pages = numbered(&rt, rt.alloc())?;
    for case in &CASES {
        compare(&rt, rt.alloc(), &pages, case)?;
    }
    Ok(())
}

#[test]
fn a_blob_is_made_once_and_removed_once(rt: HostRuntime) -> Result<(), Fail> {
    let pages = Pages::new(rt.alloc(), 1)?;
    let mut blobs = Blobs::new(rt.alloc());
    let mut codes = Vec::new(rt.alloc());
    for id in [2, 1, 2] {
        let done = blobs.create(rt.alloc(), &pages, id, 1, 0, 1, &FIRST_BYTE)?;
        codes.push(done.err())?;
    }
    codes.push(blobs.remove(2).err())?;
    codes.push(blobs.remove(2).err())?;
    let again = blobs.create(rt.alloc(), &pages, 2, 1, 0, 1, &FIRST_BYTE)?;
    codes.push(again.err())?;
    let taken = Some(ERR_INVALID_RESOURCE_ID);
    assert!(&rt; codes.as_slice() == [None, None, taken, None, taken, None].as_slice());
    assert!(&rt; blobs.has(1) && blobs.has(2));
    Ok(())
}
