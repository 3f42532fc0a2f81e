//! The flags of pages, and the bytes of pages by their numbers.

ghost use Rattle.std.specs.List.{list_any};
ghost use Rattle.std.specs.Prelude.{◌≡◌, ◌+◌, ◌*◌, ◌<◌, ◌≤◌, All, IfOk, length, take, ℕ, List};
ghost use Rattle.vg_pages.specs.Lending.{AreFlagged, is_flagged};
ghost use Rattle.vg_pages.specs.Memory.{AreTakenBelow, free_pages, is_among, marked, zeroed};

use crate::blocks::Blocks;
use std::alloc::{AllocError, Global};

/// The `n` lowest free pages, rising, or all where there are fewer. None below `low` is free.
pub(crate) fn lowest_free(
    alloc: Global,
    taken: &[bool],
    low: usize,
    n: usize,
) -> Result<Vec<u32>, AllocError>
    requires pages { length taken.now ≤ 65536 }
    requires low { low ≤ length taken.now }
    requires below { AreTakenBelow taken.now low }
    ensures lowest { IfOk result (λ pages. pages.items ≡ take n (free_pages taken.now)) }
    ensures inside { IfOk result (λ pages. All (λ page. page < length taken.now) pages.items) }
{
    let mut pages = Vec::with_capacity(alloc, n.min(taken.len() - low))?;
    for page in low..taken.len() {
        if pages.len() == n {
            return Ok(pages);
        }
        if !taken[page] {
            pages.push(page as u32)?;
        }
    }
    Ok(pages)
}

/// The first page from `low` on that is free. Where no page is `free`, it is `low`, and none is looked for. None below `low` is free.
pub(crate) fn next_free(taken: &[bool], low: usize, free: u32) -> usize
    requires low { low ≤ length taken.now }
    requires below { AreTakenBelow taken.now low }
    ensures inside { result ≤ length taken.now }
    ensures below { AreTakenBelow taken.now result }
{
    if free == 0 {
        return low;
    }
    for page in low..taken.len() {
        if !taken[page] {
            return page;
        }
    }
    taken.len()
}

/// The least of these.
pub(crate) fn least(low: usize, pages: &[u32]) -> usize
    ensures low { result ≤ low }
    ensures pages { All (λ page. result ≤ page) pages.now }
{
    let mut least = low;
    for page in pages {
        least = least.min(*page as usize);
    }
    least
}

/// Sets the flags of these pages, or clears them.
pub fn mark(flags: &mut [bool], pages: &[u32], now: bool)
    requires { All (λ page. page < length flags.old) pages.now }
    ensures { flags.new ≡ marked pages.now now flags.old }
{
    for page in pages {
        flags[*page as usize] = now;
    }
}

/// Writes zeros over these pages.
pub(crate) fn zero(bytes: &mut Blocks, pages: &[u32])
    requires { All (λ page. 4096 * page + 4096 ≤ length bytes.old) pages.now }
    ensures { bytes.new ≡ zeroed pages.now bytes.old }
{
    for page in pages {
        bytes.zero(*page);
    }
}

/// Whether a page of these has its flag set. A page past the end of the flags has none.
pub fn any_flagged(pages: &[u32], flags: &[bool]) -> bool
    ensures { (all : List ℕ) → AreFlagged flags.now all → result ≡ list_any (is_among all) pages.now }
{
    for page in pages {
        if is_flagged(flags, *page) {
            return true;
        }
    }
    false
}

/// Whether one of the `n` lowest free pages has its flag set, or one of all free pages where there are fewer. None below `low` is
/// free.
pub(crate) fn any_free_flagged(taken: &[bool], low: usize, n: usize, flags: &[bool]) -> bool
    requires pages { length taken.now ≤ 65536 }
    requires low { low ≤ length taken.now }
    requires below { AreTakenBelow taken.now low }
    ensures { result ≡ list_any (is_flagged flags.now) (take n (free_pages taken.now)) }
{
    let mut count = 0;
    for page in low..taken.len() {
        if count == n {
            return false;
        }
        if !taken[page] {
            if is_flagged(flags, page as u32) {
                return true;
            }
            count += 1;
        }
    }
    false
}

fn is_flagged(flags: &[bool], page: u32) -> bool
    ensures { result ≡ is_flagged flags.now page }
{
    match flags.get(page as usize) {
        Some(flag) => *flag,
        None => false,
    }
}
