//! Transfers in two steps, and which pages entries touch.

ghost use Rattle.std.specs.Prelude.{◌*◌, ◌<◌, ◌^◌, All};
ghost use Rattle.vg_backing.specs.Backing.{AreHeld};

use crate::transfers::{attached, falling, numbered};
use std::alloc::Global;
use std::process::Abort;
use std::test::Fail;
use vg_backing::Backing;
use vg_formats::{MemEntry, Rect};
use vg_pages::Pages;
use vg_places::zeros;
use vg_transfer::{Backings, Region, place};

/// The address of the first page.
const START: u64 = 1_048_576;

/// The pixels of a resource, which were zeros, after a transfer, and after its bytes were lent and placed.
fn both(
    rt: &impl Abort,
    alloc: Global,
    pages: &Pages,
    backings: &Backings,
    region: &Region,
) -> Result<(Vec<u8>, Vec<u8>), Fail>
    requires held { All (λ entry. AreHeld pages.now entry.1) backings.now }
    requires small { 4 * region.now.width * region.now.height < 2 ^ 32 }
{
    assert!(rt; backings.refusal(1, region).is_none());
    assert!(rt; !region.rect.is_empty());
    let count = 4 * region.width as usize * region.height as usize;
    let mut bytes = backings.lend(alloc, pages, 1, region)?;
    let mut placed = zeros(alloc, count)?;
    place(
        &region.rect,
        region.width,
        &mut bytes,
        placed.as_mut_slice(),
    );
    let mut sent = zeros(alloc, count)?;
    let _ = backings.transfer(pages, 1, region, sent.as_mut_slice());
    Ok((sent, placed))
}

/// Entries in falling order (how many, and of how many bytes each), the resource's width and height, rectangle (x, y, width, height)
/// and offset; two bytes of the pixels from a place on.
type Case = (
    (u32, u32),
    (u32, u32),
    (u32, u32, u32, u32),
    u64,
    usize,
    (u8, u8),
);

static CASES: [Case; 5] = [
    // Whole rows across pages.
    ((5, 4_096), (1_000, 4), (0, 0, 1_000, 4), 96, 4_000, (42, 1)),
    // Each row goes across a page's end.
    (
        (5, 4_096),
        (1_000, 4),
        (1, 1, 998, 3),
        2_000,
        10_196,
        (41, 1),
    ),
    // A page's end lies between two rows.
    ((5, 4_096), (1_000, 4), (999, 0, 1, 4), 96, 7_996, (42, 1)),
    // Entries of three bytes, and of one.
    ((8, 3), (2, 2), (0, 0, 1, 2), 0, 1, (43, 1)),
    ((16, 1), (3, 2), (1, 0, 1, 2), 0, 4, (1, 43)),
];

/// What a case comes to.
fn compare(rt: &impl Abort, alloc: Global, pages: &Pages, case: &Case) -> Result<(), Fail> {
    let ((count, length), (width, height), (x, y, columns, rows), offset, at, bytes) = *case;
    let entries = falling(alloc, count, length)?;
    let backings = attached(rt, alloc, pages, entries.as_slice())?;
    assert!(rt; width < 2_000 && height < 2_000);
    let region = Region {
        rect: Rect {
            x,
            y,
            width: columns,
            height: rows,
        },
        offset,
        width,
        height,
    };
    let (sent, placed) = both(rt, alloc, pages, &backings, &region)?;
    assert!(rt;
        placed.as_slice() == sent.as_slice(),
        "{count} entries of {length} bytes, from {offset}"
    );
    let found = (
        placed.get(at).copied(),
        placed.get(at.saturating_add(1)).copied(),
    );
    assert!(rt;
        found == (Some(bytes.0), Some(bytes.1)),
        "{count} entries of {length} bytes, from {offset}"
    );
    Ok(())
}

#[test]
fn what_is_lent_and_placed_is_what_is_transferred(rt: HostRuntime) -> Result<(), Fail> {
    let pages = numbered(&rt, rt.alloc())?;
    for case in &CASES {
        compare(&rt, rt.alloc(), &pages, case)?;
    }
    Ok(())
}

/// An entry (how many bytes it begins behind the first page's first, and its length), a page, and whether the entry touches it.
static TOUCHED: [(u64, u32, u32, bool); 12] = [
    (4_096, 4_096, 0, false),
    (4_096, 4_096, 1, true),
    (4_096, 4_096, 2, false),
    (4_095, 1, 0, true),
    (4_095, 1, 1, false),
    (4_096, 1, 0, false),
    (4_096, 1, 1, true),
    (4_095, 2, 0, true),
    (4_095, 2, 1, true),
    (1, 12_287, 2, true),
    (1, 12_287, 3, false),
    (1, 12_288, 3, true),
];

/// Whether the entry touches the page of these pages that alone is flagged.
fn touches(alloc: Global, pages: &Pages, from: u64, length: u32, page: u32) -> Result<bool, Fail> {
    let entries = [MemEntry {
        addr: START.wrapping_add(from),
        length,
    }];
    let backing = Backing::new(alloc, pages, entries.as_slice())?.ok_or("it lies in memory")?;
    let flags = [page == 0, page == 1, page == 2, page == 3];
    Ok(backing.touches_some(flags.as_slice()))
}

#[test]
fn entries_touch_the_pages_that_have_their_bytes(rt: HostRuntime) -> Result<(), Fail> {
    let pages = Pages::new(rt.alloc(), 4)?;
    for (from, length, page, wanted) in &TOUCHED {
        let found = touches(rt.alloc(), &pages, *from, *length, *page)?;
        assert!(&rt;
            found == *wanted,
            "{length} bytes from {from} on, and page {page}"
        );
    }
    Ok(())
}
