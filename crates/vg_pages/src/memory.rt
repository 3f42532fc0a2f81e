//! Guest memory page by page, with a flag for each page.

ghost use Rattle.std.specs.Prelude.{◌≡◌, ℕ, List, All, ◌<◌, ◌≤◌, ◌*◌, ◌↔◌, IfOk, IfSome, IfNone, OnErr, IsNone, IsTrue, length, min, take, false, vec_len, ◌-◌, ◌/◌, ◌%◌};
ghost use Rattle.vg_pages.specs.Lending.{AreFlagged, would_take};
ghost use Rattle.vg_pages.specs.Memory.{HasWholePages, fresh_memory, HoldsRange, bytes_at, written_at, free_pages, is_among, is_free, marked, after_taking, AreGivable, AreTakeable, page_address};

use crate::blocks::Blocks;
use crate::flags::{any_free_flagged, least, lowest_free, mark, next_free, zero};
use crate::piece::Piece;
use crate::{MEMORY_START, PAGE_BYTES, page_address};
use std::alloc::{AllocError, Global};
use std::marker::Model;

/// Guest memory: pages of 4,096 bytes, page p at the address 1,048,576 + 4,096 * p. Addresses and lengths
/// are in bytes. A clause sees the bytes of all pages as one list, and for each page whether it is taken.
#[derive(Debug, Drop)]
pub struct Pages {
    bytes: Blocks,
    taken: Vec<bool>,
    /// No page below this one is free.
    low: usize,
    /// How many pages are free.
    free: u32,
}

impl Model for Pages {
    ghost use Rattle.std.specs.Prelude.{◌≡◌, ◌≤◌, length};
    ghost use Rattle.vg_pages.specs.Memory.{Memory, HasWholePages, AreTakenBelow, free_pages};

    ghost Value = { Memory };

    ghost view = { λ p. record { bytes = p.bytes; taken = p.taken.items } };

    ghost invariant = { λ p. HasWholePages (record { bytes = p.bytes; taken = p.taken.items }) × (p.low ≤ length p.taken.items) × AreTakenBelow p.taken.items p.low × (p.free ≡ length (free_pages p.taken.items)) };
}

impl Pages {
    /// Memory of `count` pages, all of it taken from the allocator here. Its bytes are 0, and no page is taken. A page that
    /// is never written costs no time.
    #[tactic(auto, unfolding(crate::specs::Memory::fresh_memory))]
    pub fn new(alloc: Global, count: u32) -> Result<Pages, AllocError>
        requires some { 0 < count }
        requires limit { count ≤ 65536 }
        ensures fresh { IfOk result (λ memory. memory ≡ fresh_memory count) }
        ensures count { IfOk result (λ memory. length memory.taken ≡ count) }
        ensures pages { IfOk result HasWholePages }
    {
        let bytes = Blocks::new(alloc, count)?;
        let taken = vec![in alloc; false; count as usize]?;
        Ok(Pages {
            bytes,
            taken,
            low: 0,
            free: count,
        })
    }

    /// The `n` lowest free pages, which stay free. None where fewer are free.
    pub fn lowest(&self, alloc: Global, n: u32) -> Result<Option<Vec<u32>>, AllocError>
        ensures none { IfOk result (λ answer. IsNone answer ↔ (length (free_pages self.now.taken) < n)) }
        ensures lowest { IfOk result (λ answer.
            IfSome answer (λ pages. pages.items ≡ take n (free_pages self.now.taken))) }
        ensures count { IfOk result (λ answer. IfSome answer (λ pages. vec_len pages ≡ n)) }
        ensures takeable { IfOk result (λ answer. IfSome answer (λ pages. AreTakeable self.now.taken pages.items)) }
    {
        if self.free < n {
            return Ok(None);
        }
        let pages = lowest_free(alloc, self.taken.as_slice(), self.low, n as usize)?;
        Ok(Some(pages))
    }

    /// Takes these pages, and zeros them.
    pub fn take_these(&mut self, list: &[u32])
        requires { AreTakeable self.old.taken list.now }
        ensures after { self.new ≡ after_taking self.old list.now }
        ensures givable { AreGivable self.new.taken list.now }
        ensures others { (mine : List ℕ) → AreGivable self.old.taken mine → AreGivable self.new.taken mine }
    {
        mark(self.taken.as_mut_slice(), list, true);
        zero(&mut self.bytes, list);
        self.free -= list.len() as u32;
        self.low = next_free(self.taken.as_slice(), self.low, self.free);
    }

    /// Takes the `n` lowest free pages, and zeros them. None where fewer are free.
    pub fn take(&mut self, alloc: Global, n: u32) -> Result<Option<Vec<u32>>, AllocError>
        ensures none { IfOk result (λ answer. IsNone answer ↔ (length (free_pages self.old.taken) < n)) }
        ensures lowest { IfOk result (λ answer.
            IfSome answer (λ pages. pages.items ≡ take n (free_pages self.old.taken))) }
        ensures count { IfOk result (λ answer. IfSome answer (λ pages. vec_len pages ≡ n)) }
        ensures givable { IfOk result (λ answer.
            IfSome answer (λ pages. AreGivable self.new.taken pages.items)) }

        // What memory is afterwards.
        ensures after { IfOk result (λ answer.
            IfSome answer (λ pages. self.new ≡ after_taking self.old pages.items)) }
        ensures others { (mine : List ℕ) → AreGivable self.old.taken mine → AreGivable self.new.taken mine }
        ensures kept { IfOk result (λ answer. IfNone answer (self.new ≡ self.old)) }
        ensures err { OnErr result (self.new ≡ self.old) }
    {
        let Some(pages) = self.lowest(alloc, n)? else {
            return Ok(None);
        };
        self.take_these(pages.as_slice());
        Ok(Some(pages))
    }

    /// Makes these pages free again. Their bytes stay until they are taken.
    pub fn give(&mut self, list: &[u32])
        requires { AreGivable self.old.taken list.now }
        ensures after { self.new ≡ record self.old { taken = marked list.now false self.old.taken } }
        ensures others { (mine : List ℕ) → AreGivable self.old.taken mine
            → All (λ page. is_among list.now page ≡ false) mine → AreGivable self.new.taken mine }
    {
        mark(self.taken.as_mut_slice(), list, false);
        self.low = least(self.low, list);
        self.free += list.len() as u32;
    }

    /// How many pages are free.
    pub fn free(&self) -> u32
        ensures count { result ≡ length (free_pages self.now.taken) }
        ensures pages { HasWholePages self.now }
    {
        self.free
    }

    /// Whether there is such a page, and it is free.
    pub fn is_free(&self, page: u32) -> bool
        ensures { result ≡ is_free self.now.taken page }
    {
        match self.taken.get(page as usize) {
            Some(is_taken) => !*is_taken,
            None => false,
        }
    }

    /// Whether one of the `n` lowest free pages has its flag set. False where fewer are free.
    pub fn would_take(&self, n: u32, flags: &[bool]) -> bool
        ensures { (pages : List ℕ) → AreFlagged flags.now pages → result ≡ would_take n pages self.now.taken }
    {
        if self.free < n {
            return false;
        }
        any_free_flagged(self.taken.as_slice(), self.low, n as usize, flags)
    }

    /// Whether the `length` bytes from the address `addr` on lie wholly in memory. An empty range does where its
    /// address is in memory or the first one past it.
    pub fn holds(&self, addr: u64, length: u64) -> bool
        ensures held { IsTrue result ↔ HoldsRange self.now addr length }
        ensures pages { HasWholePages self.now }
    {
        let end = MEMORY_START + self.bytes.len() as u64;
        MEMORY_START <= addr && addr <= end && length <= end - addr
    }

    /// The address of the first byte of a page that there is.
    pub fn address(&self, page: u32) -> u64
        requires { page < length self.now.taken }
        ensures address { result ≡ page_address page }
        ensures pages { HasWholePages self.now }
    {
        prove!((page as usize) < self.taken.len());
        page_address(page)
    }

    /// The page that has the byte of this address.
    pub fn page_at(&self, addr: u64) -> u32
        requires { HoldsRange self.now addr 1 }
        ensures page { result ≡ (addr - 1048576) / 4096 }
        ensures inside { result < length self.now.taken }
    {
        prove!((addr - MEMORY_START) as usize / PAGE_BYTES < self.taken.len());
        ((addr - MEMORY_START) as usize / PAGE_BYTES) as u32
    }

    /// Copies the bytes from the address `addr` on into `out`, as many as it has.
    pub fn read(&self, addr: u64, out: &mut [u8])
        requires { HoldsRange self.now addr (length out.old) }
        ensures { out.new ≡ bytes_at self.now.bytes addr (length out.old) }
    {
        self.bytes.read((addr - MEMORY_START) as usize, out);
    }

    /// The bytes from the address `addr` on, at most `most` and up to the end of their page, as they are now. It copies none
    /// where the page was written to since it was taken.
    pub fn share(&self, alloc: Global, addr: u64, most: usize) -> Result<Piece, AllocError>
        requires held { HoldsRange self.now addr most }
        requires some { 0 < most }
        ensures bytes { IfOk result (λ piece. piece ≡ bytes_at self.now.bytes addr (length piece)) }
        ensures length { IfOk result (λ piece. length piece ≡ min most (4096 - addr % 4096)) }
    {
        self.bytes
            .share(alloc, (addr - MEMORY_START) as usize, most)
    }

    /// Writes `bytes` over memory from the address `addr` on.
    pub fn write(&mut self, addr: u64, bytes: &[u8])
        requires { HoldsRange self.old addr (length bytes.now) }
        ensures { self.new ≡ record self.old { bytes = written_at self.old.bytes addr bytes.now } }
    {
        self.bytes.write((addr - MEMORY_START) as usize, bytes);
    }
}
