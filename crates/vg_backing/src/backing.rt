//! Backings: the ranges of guest memory that a resource's pixels come from (VIRTIO 1.2, 5.7.6.8).

ghost use Rattle.std.specs.Prelude.{◌≡◌, ℕ, List, ◌+◌, ◌-◌, ◌*◌, ◌<◌, ◌≤◌, ◌⊎◌, ◌^◌, [], true, length, take, drop, IfOk, IfSome, IfNone, OnErr, false, All, option_copied, nat_le, nat_lt, ◌&&◌};
ghost use Rattle.std.specs.List.{list_any};
ghost use Rattle.vg_backing.specs.Backing.{AreHeld, are_bad, backing_bytes, is_bad, is_touched, total, touches};
ghost use Rattle.vg_pages.specs.Lending.{AreFlagged, AreSameIn};
ghost use Rattle.vg_pages.specs.Memory.{Memory};
ghost use Rattle.vg_backing.specs.Fits.{ArePlaced, EndsInRange, HasByte, IsLent, entries_of, entry_of};
ghost use Rattle.vg_backing.specs.Runs.{runs_of};

use crate::run::{Run, table_of};
use std::alloc::{AllocError, Global};
use std::marker::Model;
use vg_formats::MemEntry;
use vg_pages::{LentBytes, MEMORY_START, PAGE_BYTES, Pages, page_address};

/// The entries of a resource, whose bytes stand one after another. A clause sees it as the list of its entries.
#[derive(Debug, Drop)]
pub struct Backing {
    entries: Vec<MemEntry>,
    runs: Vec<Run>,
    length: u64,
}

impl Model for Backing {
    ghost use Rattle.std.specs.Prelude.{◌≡◌, ◌<◌, ◌^◌, List};
    ghost use Rattle.vg_formats.specs.declared.entry.MemEntry.{MemEntry};
    ghost use Rattle.vg_backing.specs.Backing.{total};
    ghost use Rattle.vg_backing.specs.Fits.{IsTable};
    ghost use Rattle.vg_backing.specs.Runs.{runs_of};

    ghost Value = { List MemEntry };

    ghost view = { λ b. b.entries.items };

    ghost invariant = { λ b. (b.runs.items ≡ runs_of b.entries.items) × (b.length ≡ total b.entries.items) × (b.length < 2 ^ 64) × IsTable b.entries.items b.runs.items };
}

impl Backing {
    /// The backing of these entries. None where there are none, one has no bytes, or one isn't wholly in guest memory.
    pub fn new(
        alloc: Global,
        pages: &Pages,
        entries: &[MemEntry],
    ) -> Result<Option<Backing>, AllocError>
        requires number { length entries.now < 2 ^ 32 }
        ensures some { IfOk result (λ answer. IfSome answer (λ backing. backing ≡ entries.now)) }
        ensures held { IfOk result (λ answer. IfSome answer (λ backing. AreHeld pages.now backing)) }
        ensures good { IfOk result (λ answer. IfSome answer (λ backing. are_bad pages.now entries.now ≡ false)) }
        ensures none { IfOk result (λ answer. IfNone answer (are_bad pages.now entries.now ≡ true)) }
    {
        if entries.is_empty() || has_bad(pages, entries) {
            return Ok(None);
        }
        let backing = Backing::of(alloc, entries)?;
        Ok(Some(backing))
    }

    fn of(alloc: Global, entries: &[MemEntry]) -> Result<Backing, AllocError>
        requires number { length entries.now < 2 ^ 32 }
        requires some { 0 < length entries.now }
        requires ends { All EndsInRange entries.now }
        ensures { IfOk result (λ backing. backing ≡ entries.now) }
    {
        let (runs, length) = table_of(alloc, entries)?;
        let entries = entries.to_vec(alloc)?;
        Ok(Backing {
            entries,
            runs,
            length,
        })
    }

    /// The entries in order, each joined to the one before where it begins at that one's end. They are made once, with the backing.
    pub fn runs(&self) -> &[Run]
        ensures { result.now ≡ runs_of self.now }
    {
        self.runs.as_slice()
    }

    /// The entries, in order.
    pub fn entries(&self) -> &[MemEntry]
        ensures { result.now ≡ self.now }
    {
        self.entries.as_slice()
    }

    /// How many bytes the entries have.
    pub fn length(&self) -> u64
        ensures { result ≡ total self.now }
    {
        self.length
    }

    /// Copies the bytes of the entries from number `at` on into `out`, as many as it has.
    pub fn read(&self, pages: &Pages, at: u64, out: &mut [u8])
        requires held { AreHeld pages.now self.now }
        requires inside { at + length out.old ≤ total self.now }
        ensures { out.new ≡ take (length out.old) (drop at (backing_bytes pages.now self.now)) }
    {
        if out.is_empty() {
            return;
        }
        let runs = self.runs.as_slice();
        let first = run_of(runs, at);
        read_from(runs, first, pages, at, out);
    }

    /// The bytes of the entries from number `at` on, so many, as they are now. They are the same as long as nothing is written to
    /// the pages that have them.
    pub fn lend(
        &self,
        alloc: Global,
        pages: &Pages,
        at: u64,
        count: usize,
    ) -> Result<LentBytes, AllocError>
        requires held { AreHeld pages.now self.now }
        requires inside { at + count ≤ total self.now }
        requires some { 0 < count }
        ensures bytes { IfOk result (λ lent. lent.bytes ≡ take count (drop at (backing_bytes pages.now self.now))) }
        ensures rest { IfOk result (λ lent. (other : Memory) → AreSameIn lent.pages pages.now other
            → take count (drop at (backing_bytes other self.now)) ≡ lent.bytes) }
        ensures touched { IfOk result (λ lent. All (λ page. touches page self.now ≡ true) lent.pages) }
        ensures inside { IfOk result (λ lent. All (λ page. page < length pages.now.taken) lent.pages) }
    {
        let runs = self.runs.as_slice();
        let first = run_of(runs, at);
        lend_from(alloc, runs, first, pages, at, count)
    }

    /// Whether some byte of the page lies in an entry.
    pub fn touches(&self, page: u32) -> bool
        ensures { result ≡ touches page self.now }
    {
        touches_in(self.runs.as_slice(), page)
    }

    /// Whether some byte of a page whose flag is set lies in an entry. It takes time by the pages that the entries have.
    pub fn touches_some(&self, flags: &[bool]) -> bool
        ensures { (pages : List ℕ) → AreFlagged flags.now pages → result ≡ list_any (λ page. touches page self.now) pages }
    {
        some_touched(self.runs.as_slice(), flags)
    }
}

/// Whether one of the entries has no bytes, or isn't wholly in guest memory.
fn has_bad(pages: &Pages, entries: &[MemEntry]) -> bool
    ensures bad { result ≡ list_any (is_bad pages.now) entries.now }
    ensures ends { result ≡ false → All EndsInRange entries.now }
{
    for entry in entries {
        if is_bad(pages, entry) {
            return true;
        }
    }
    false
}

fn is_bad(pages: &Pages, entry: &MemEntry) -> bool
    ensures bad { result ≡ is_bad pages.now entry.now }
    ensures ends { result ≡ false → EndsInRange entry.now }
{
    entry.length == 0 || !pages.holds(entry.addr, u64::from(entry.length))
}

/// Which run has the byte of number `at`.
fn run_of(runs: &[Run], at: u64) -> usize
    requires placed { ArePlaced runs.now }
    requires inside { at < total (entries_of runs.now) }
    ensures { HasByte runs.now result at }
{
    let mut low = 0;
    let mut high = runs.len();
    while high - low > 1 {
        let middle = low + (high - low) / 2;
        if runs[middle].start <= at {
            low = middle;
        } else {
            high = middle;
        }
    }
    low
}

/// Copies the bytes from number `at` on, of which the run `first` has the first.
fn read_from(runs: &[Run], first: usize, pages: &Pages, at: u64, out: &mut [u8])
    requires placed { ArePlaced runs.now }
    requires held { AreHeld pages.now (entries_of runs.now) }
    requires first { HasByte runs.now first at }
    requires small { total (entries_of runs.now) < 2 ^ 64 }
    requires inside { at + length out.old ≤ total (entries_of runs.now) }
    ensures { out.new ≡ take (length out.old) (drop at (backing_bytes pages.now (entries_of runs.now))) }
{
    let mut i = first;
    let mut done = 0;
    while done < out.len() {
        let run = runs[i];
        let skip = at + done as u64 - run.start;
        let here = (run.length - skip) as usize;
        let n = here.min(out.len() - done);
        pages.read(run.addr + skip, &mut out[done..done + n]);
        done += n;
        i += 1;
    }
}

/// The bytes from number `at` on, so many, of which the run `first` has the first.
fn lend_from(
    alloc: Global,
    runs: &[Run],
    first: usize,
    pages: &Pages,
    at: u64,
    count: usize,
) -> Result<LentBytes, AllocError>
    requires placed { ArePlaced runs.now }
    requires held { AreHeld pages.now (entries_of runs.now) }
    requires first { HasByte runs.now first at }
    requires small { total (entries_of runs.now) < 2 ^ 64 }
    requires inside { at + count ≤ total (entries_of runs.now) }
    ensures { IfOk result (IsLent pages.now (entries_of runs.now) at count) }
{
    let mut pieces = Vec::new(alloc);
    let mut touched = Vec::new(alloc);
    let mut i = first;
    let mut done = 0;
    while done < count {
        let run = runs[i];
        let skip = at + done as u64 - run.start;
        let here = (run.length - skip) as usize;
        let addr = run.addr + skip;
        let piece = pages.share(alloc, addr, here.min(count - done))?;
        let n = piece.len();
        pieces.push(piece)?;
        touched.push(pages.page_at(addr))?;
        done += n;
        if n == here {
            i = i + 1;
        }
    }
    Ok(LentBytes::of(pieces, touched))
}

/// Whether some byte of the page lies in the entry of a run.
fn touches_in(runs: &[Run], page: u32) -> bool
    ensures { result ≡ touches page (entries_of runs.now) }
{
    for run in runs {
        if touches_run(run, page) {
            return true;
        }
    }
    false
}

fn touches_run(run: &Run, page: u32) -> bool
    ensures { result ≡ is_touched page (entry_of run.now) }
{
    let start = u128::from(page_address(page));
    let from = u128::from(run.addr);
    let to = from + u128::from(run.length);
    run.length != 0 && from < start + PAGE_BYTES as u128 && start < to
}

/// Whether some byte of a page whose flag is set lies in the entry of a run.
fn some_touched(runs: &[Run], flags: &[bool]) -> bool
    ensures { (pages : List ℕ) → AreFlagged flags.now pages → result ≡ list_any (λ page. touches page (entries_of runs.now)) pages }
{
    for run in runs {
        if touches_flagged(run, flags) {
            return true;
        }
    }
    false
}

fn touches_flagged(run: &Run, flags: &[bool]) -> bool
    ensures { (pages : List ℕ) → AreFlagged flags.now pages → result ≡ list_any (λ page. is_touched page (entry_of run.now)) pages }
{
    let first = run.addr.saturating_sub(MEMORY_START) / PAGE_BYTES as u64;
    let to = u128::from(run.addr) + u128::from(run.length);
    let end = to
        .saturating_sub(u128::from(MEMORY_START))
        .div_ceil(PAGE_BYTES as u128);
    run.length != 0 && any_flagged_between(first, end as u64, flags)
}

/// Whether a page from `first` on and below `end` has its flag set.
fn any_flagged_between(first: u64, end: u64, flags: &[bool]) -> bool
    ensures { (pages : List ℕ) → AreFlagged flags.now pages → result ≡ list_any (λ page. nat_le first page && nat_lt page end) pages }
{
    let past = end.min(flags.len() as u64) as usize;
    let start = first.min(past as u64) as usize;
    for page in start..past {
        if flags[page] {
            return true;
        }
    }
    false
}
