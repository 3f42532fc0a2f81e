//! The pages that a request names and that aren't those of its resource's buffer.

ghost use Rattle.std.specs.Prelude.{◌≡◌, ◌<◌, ◌≤◌, ◌^◌, ◌+◌, ◌-◌, true, if◌then◌else◌, length, slice_index_or, Some, None, IfOk, IfSome};
ghost use Rattle.std.specs.List.{find, list_any, slice_set};
ghost use Rattle.vg_client_holds.specs.ForeignWithin.{AreMarked, AreOwn, AreStarts, between, foreign_page, is_outside};
ghost use Rattle.vg_client_holds.specs.ForeignWithin as tables;
ghost use Rattle.vg_client_holds.specs.Holds.{has_page, pages_in, pages_in_entry};
ghost use Rattle.vg_pages.specs.Memory.{is_among};

use crate::act::What;
use crate::holds::Holds;
use std::alloc::{AllocError, Global};
use vg_formats::MemEntry;
use vg_pages::page_address;
use vg_share::PageList;

/// The first page that entries name and that isn't one of the buffer of this key. It takes time in proportion to the
/// number of entries and of all pages, however many pages the entries name.
pub(crate) fn first_foreign(
    alloc: Global,
    holds: &Holds,
    key: u32,
    entries: &[MemEntry],
) -> Result<Option<What>, AllocError>
    ensures { IfOk result (λ what. what ≡ foreign_page holds.now key (pages_in holds.now.pages entries.now)) }
{
    if are_own(holds, key, entries) {
        return Ok(None);
    }
    let own = own_pages(alloc, holds, key)?;
    let starts = starts_for(alloc, own.as_slice(), entries)?;
    match missing_of(holds.pages, own.as_slice(), starts.as_slice(), entries) {
        Some(n) => Ok(Some(What::Page { n })),
        None => Ok(None),
    }
}

/// Whether each entry is a page of the buffer of this key, in the order of its pages. It may say no where all of their pages are.
fn are_own(holds: &Holds, key: u32, entries: &[MemEntry]) -> bool
    ensures { result ≡ true → find (tables.is_foreign holds.now key) (pages_in holds.now.pages entries.now) ≡ None }
{
    match holds.buffers.pages_by_halving(key) {
        Some(pages) => are_each(holds.pages, pages, entries),
        None => false,
    }
}

/// Whether each entry is the page in its place, or names none.
fn are_each(count: u32, pages: &[u32], entries: &[MemEntry]) -> bool
    ensures { result ≡ true → find (is_outside pages.now) (pages_in count entries.now) ≡ None }
{
    for (place, entry) in entries.iter().enumerate() {
        if !is_page_at(count, pages, place, *entry) {
            return false;
        }
    }
    true
}

/// Whether an entry is the page in this place, or names none.
fn is_page_at(count: u32, pages: &[u32], place: usize, entry: MemEntry) -> bool
    ensures { result ≡ true → find (is_outside pages.now) (pages_in_entry count entry) ≡ None }
{
    match pages_between(count, entry) {
        Some((first, end)) => end == first + 1 && stands_at(pages, place, first),
        None => true,
    }
}

/// Whether the page stands in this place.
fn stands_at(pages: &[u32], place: usize, page: u32) -> bool
    ensures { result ≡ true → is_among pages.now page ≡ true }
{
    match pages.get(place) {
        Some(one) => *one == page,
        None => false,
    }
}

/// Of each page whether it is one of the buffer of this key.
fn own_pages(alloc: Global, holds: &Holds, key: u32) -> Result<Vec<bool>, AllocError>
    ensures { IfOk result (λ own. AreOwn holds.now key own.items) }
{
    let mut own = vec![in alloc; false; holds.pages as usize]?;
    let (front, rest) = holds.buffers.parts();
    mark_pairs(own.as_mut_slice(), key, front);
    mark_pairs(own.as_mut_slice(), key, rest);
    Ok(own)
}

/// Marks the pages of each of these buffers that has this key.
fn mark_pairs(own: &mut [bool], key: u32, pairs: &[(u32, PageList)])
    ensures { AreMarked own.old (λ page. list_any (has_page key page) pairs.now) own.new }
{
    for pair in pairs {
        mark_pair(own, key, pair);
    }
}

/// Marks the pages of a buffer, if it has this key.
fn mark_pair(own: &mut [bool], key: u32, pair: &(u32, PageList))
    ensures { AreMarked own.old (λ page. has_page key page pair.now) own.new }
{
    if pair.0 == key {
        mark_those_there(own, pair.1.as_slice());
    }
}

/// Marks these pages, as far as the table has them.
fn mark_those_there(own: &mut [bool], pages: &[u32])
    ensures { AreMarked own.old (is_among pages.now) own.new }
{
    for page in pages {
        mark_one(own, *page);
    }
}

fn mark_one(own: &mut [bool], page: u32)
    ensures { own.new ≡ slice_set own.old page true }
{
    if (page as usize) < own.len() {
        own[page as usize] = true;
    }
}

/// The starts of runs, or none of them where the entries name so few pages that looking at each takes less.
fn starts_for(alloc: Global, own: &[bool], entries: &[MemEntry]) -> Result<Vec<usize>, AllocError>
    ensures { IfOk result (λ starts. AreStarts own.now starts.items) }
{
    if count_pages(entries) <= own.len() as u64 {
        Ok(Vec::new(alloc))
    } else {
        run_starts(alloc, own)
    }
}

/// How many pages entries may name, or more than there are addresses.
fn count_pages(entries: &[MemEntry]) -> u64 {
    let mut count = 0u64;
    for entry in entries {
        count = count.saturating_add(u64::from(entry.length / 4096) + 2);
    }
    count
}

/// Of each page the first from which on the table says yes up to it.
fn run_starts(alloc: Global, own: &[bool]) -> Result<Vec<usize>, AllocError>
    ensures { IfOk result (λ starts. AreStarts own.now starts.items) }
{
    let mut starts = Vec::with_capacity(alloc, own.len())?;
    let mut start = 0;
    for i in 0..own.len() {
        start = start_of(start, i, own[i]);
        starts.push(start)?;
    }
    Ok(starts)
}

fn start_of(start: usize, i: usize, own: bool) -> usize
    requires { i < 2 ^ 63 }
    ensures { result ≡ (if own then start else i + 1) }
{
    if own { start } else { i + 1 }
}

/// The first page that entries name and of which the table says no.
fn missing_of(count: u32, own: &[bool], starts: &[usize], entries: &[MemEntry]) -> Option<u32>
    requires count { length own.now ≡ count }
    requires starts { AreStarts own.now starts.now }
    ensures { result ≡ find (tables.is_missing own.now) (pages_in count entries.now) }
{
    for entry in entries {
        let missing = missing_in(count, own, starts, *entry);
        if missing.is_some() {
            return missing;
        }
    }
    None
}

/// The first page that an entry names and of which the table says no.
fn missing_in(count: u32, own: &[bool], starts: &[usize], entry: MemEntry) -> Option<u32>
    requires count { length own.now ≡ count }
    requires starts { AreStarts own.now starts.now }
    ensures { result ≡ find (tables.is_missing own.now) (pages_in_entry count entry) }
{
    let (first, end) = pages_between(count, entry)?;
    if reaches(starts, first, end) {
        return None;
    }
    missing_between(own, first, end)
}

/// Whether a start tells that the table says yes from `first` up to `end`.
fn reaches(starts: &[usize], first: u32, end: u32) -> bool
    requires { 0 < end }
    ensures { result ≡ true → (end - 1 < length starts.now) × (slice_index_or starts.now (end - 1) 0 ≤ first) }
{
    match starts.get(end as usize - 1) {
        Some(start) => *start <= first as usize,
        None => false,
    }
}

/// The first page from `first` up to `end` of which the table says no.
fn missing_between(own: &[bool], first: u32, end: u32) -> Option<u32>
    ensures { result ≡ find (tables.is_missing own.now) (between (Some (first, end))) }
{
    (first..end).find(|page| is_missing(own, *page))
}

fn is_missing(own: &[bool], page: u32) -> bool
    ensures { result ≡ tables.is_missing own.now page }
{
    match own.get(page as usize) {
        Some(own) => !*own,
        None => true,
    }
}

/// The first page that an entry names, and the one behind the last. None where it names none.
fn pages_between(count: u32, entry: MemEntry) -> Option<(u32, u32)>
    ensures pages { between result ≡ pages_in_entry count entry }
    ensures below { IfSome result (λ pair. (pair.0 < pair.1) × (pair.1 ≤ count)) }
{
    let start = page_address(0);
    let end = page_address(count);
    let after = u128::from(entry.addr) + u128::from(entry.length);
    if entry.length == 0 || entry.addr < start || after > u128::from(end) {
        return None;
    }
    let last = after as u64 - 1;
    let first = ((entry.addr - start) / 4096) as u32;
    Some((first, ((last - start) / 4096) as u32 + 1))
}
