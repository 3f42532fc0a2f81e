//! Transfers from entries in falling order, of a page, of two bytes and of one.

ghost use Rattle.std.specs.Prelude.{◌*◌, ◌<◌, ◌^◌, All, IfOk};
ghost use Rattle.vg_backing.specs.Backing.{AreHeld};

use std::alloc::Global;
use std::process::Abort;
use std::test::Fail;
use vg_formats::{MemEntry, Rect};
use vg_pages::Pages;
use vg_places::zeros;
use vg_transfer::{Backings, Region};

const START: u64 = 1_048_576;

/// Guest memory of 300 pages, each of which begins and ends with the two bytes of its number.
pub(crate) fn numbered(rt: &impl Abort, alloc: Global) -> Result<Pages, Fail> {
    let mut pages = Pages::new(alloc, 300)?;
    for page in 0..300u16 {
        let first = START + 4_096 * u64::from(page);
        put(rt, &mut pages, first, page);
        put(rt, &mut pages, first + 4_094, page);
    }
    Ok(pages)
}

fn put(rt: &impl Abort, pages: &mut Pages, addr: u64, number: u16) {
    assert!(rt; pages.holds(addr, 2));
    pages.write(addr, &number.to_le_bytes());
}

/// So many entries of so many bytes each, from the end of guest memory down.
pub(crate) fn falling(alloc: Global, count: u32, length: u32) -> Result<Vec<MemEntry>, Fail> {
    let mut entries = Vec::new(alloc);
    let mut addr = START + 1_228_800;
    for _entry in 0..count {
        addr = addr.wrapping_sub(u64::from(length));
        entries.push(MemEntry { addr, length })?;
    }
    Ok(entries)
}

/// The backings where resource 1 has these entries.
pub(crate) fn attached(
    rt: &impl Abort,
    alloc: Global,
    pages: &Pages,
    entries: &[MemEntry],
) -> Result<Backings, Fail>
    ensures { IfOk result (λ backings. All (λ entry. AreHeld pages.now entry.1) backings) }
{
    assert!(rt; entries.len() < 1_000);
    let mut backings = Backings::new(alloc);
    let done = backings.attach(alloc, pages, 1, entries)?;
    assert!(rt; done.is_ok());
    Ok(backings)
}

/// Whether a transfer to a resource of this size is accepted, and the resource's pixels then, which were zeros.
fn send(
    alloc: Global,
    pages: &Pages,
    backings: &Backings,
    rect: &Rect,
    offset: u64,
    size: (u32, u32),
) -> Result<(bool, Vec<u8>), Fail>
    requires held { All (λ entry. AreHeld pages.now entry.1) backings.now }
    requires small { 4 * size.0 * size.1 < 2 ^ 32 }
{
    let (width, height) = size;
    let count = 4 * width as usize * height as usize;
    let mut pixels = zeros(alloc, count)?;
    let region = Region {
        rect: *rect,
        offset,
        width,
        height,
    };
    let done = backings.transfer(pages, 1, &region, pixels.as_mut_slice());
    Ok((done.is_ok(), pixels))
}

/// Entries (how many, and of how many bytes each), rectangle (x, y, width, height) and offset; whether they are accepted,
/// and two bytes of the pixels from a place on.
type Case = ((u32, u32), (u32, u32, u32, u32), u64, bool, usize, (u8, u8));

static CASES: [Case; 12] = [
    ((300, 4_096), (0, 0, 1_024, 300), 0, true, 0, (43, 1)),
    ((300, 4_096), (0, 0, 1_024, 300), 0, true, 1_220_608, (1, 0)),
    ((300, 4_096), (0, 0, 1_024, 300), 0, true, 1_224_702, (1, 0)),
    ((300, 4_096), (0, 0, 1_024, 300), 1, false, 0, (0, 0)),
    (
        (300, 4_096),
        (1, 5, 1_023, 1),
        40_952,
        true,
        20_490,
        (34, 1),
    ),
    (
        (300, 4_096),
        (1, 5, 1_023, 1),
        40_952,
        true,
        20_492,
        (33, 1),
    ),
    (
        (300, 4_096),
        (1_023, 299, 1, 1),
        1_224_700,
        true,
        1_228_798,
        (1, 0),
    ),
    ((300, 4_096), (0, 0, 1, 1), 1_228_796, true, 0, (0, 0)),
    ((300, 4_096), (0, 0, 1, 1), 1_228_797, false, 0, (0, 0)),
    ((8, 1), (1_023, 299, 1, 1), 0, true, 1_228_796, (1, 43)),
    ((8, 1), (0, 0, 2, 1), 0, true, 0, (1, 43)),
    ((3, 2), (0, 0, 1, 1), 3, false, 0, (0, 0)),
];

/// What a case comes to.
fn sent(
    rt: &impl Abort,
    alloc: Global,
    pages: &Pages,
    case: &Case,
) -> Result<(bool, Vec<u8>), Fail> {
    let ((count, length), (x, y, width, height), offset, _, _, _) = *case;
    let entries = falling(alloc, count, length)?;
    let backings = attached(rt, alloc, pages, entries.as_slice())?;
    let rect = Rect {
        x,
        y,
        width,
        height,
    };
    send(alloc, pages, &backings, &rect, offset, (1_024, 300))
}

/// Compares what a case came to with what it has to.
fn compare(rt: &impl Abort, case: &Case, done: bool, pixels: &[u8]) {
    let ((count, length), _, offset, accepted, place, bytes) = *case;
    let found = (
        done,
        pixels.get(place).copied(),
        pixels.get(place.saturating_add(1)).copied(),
    );
    let wanted = (accepted, Some(bytes.0), Some(bytes.1));
    assert!(rt;
        found == wanted,
        "{count} entries of {length} bytes, from {offset}"
    );
}

#[test]
fn pixels_come_from_entries_in_falling_order(rt: HostRuntime) -> Result<(), Fail> {
    let pages = numbered(&rt, rt.alloc())?;
    for case in &CASES {
        let (done, pixels) = sent(&rt, rt.alloc(), &pages, case)?;
        compare(&rt, case, done, pixels.as_slice());
    }
    Ok(())
}
