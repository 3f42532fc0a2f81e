//! The bytes of pages, of which each may be shared.

ghost use Rattle.std.specs.Prelude.{◌≡◌, ◌+◌, ◌-◌, ◌*◌, ◌<◌, ◌≤◌, ◌++◌, ◌%◌, ◌^◌, IfOk, None, length, min, take, drop, replicate};
ghost use Rattle.vg_pages.specs.BlocksWithin.{IsWritten, page_of, shared_bytes, spliced};

use crate::PAGE_BYTES;
use crate::block::Block;
use crate::lazy::{LazyBytes, overwrite};
use crate::piece::Piece;
use std::alloc::{AllocError, Global};
use std::marker::Model;
use std::mem;
use vg_places::zeros;

/// The bytes of pages. A page that was written has a block of its own, where there was memory for it.
#[derive(Debug, Drop)]
pub(crate) struct Blocks {
    blocks: Vec<Option<Block>>,
    /// The bytes of the pages that have none.
    base: LazyBytes,
}

impl Model for Blocks {
    ghost use Rattle.std.specs.Prelude.{◌≡◌, ◌*◌, ℕ, List, length};
    ghost use Rattle.vg_pages.specs.BlocksWithin.{overlaid};

    ghost Value = { List ℕ };

    ghost view = { λ b. overlaid b.blocks.items b.base };

    ghost invariant = { λ b. length b.base ≡ 4096 * length b.blocks.items };
}

impl Blocks {
    /// So many pages, whose bytes are 0.
    pub(crate) fn new(alloc: Global, count: u32) -> Result<Blocks, AllocError>
        ensures { IfOk result (λ bytes. bytes ≡ replicate (4096 * count) 0) }
    {
        let count = count as usize;
        let blocks = none_of(alloc, count)?;
        let base = LazyBytes::new(alloc, count * PAGE_BYTES)?;
        Ok(Blocks { blocks, base })
    }

    /// How many bytes there are.
    pub(crate) fn len(&self) -> usize
        ensures { result ≡ length self.now }
    {
        self.base.len()
    }

    /// Copies the bytes from `start` on into `out`, as many as it has.
    pub(crate) fn read(&self, start: usize, out: &mut [u8])
        requires { start + length out.old ≤ length self.now }
        ensures { out.new ≡ take (length out.old) (drop start self.now) }
    {
        prove!(start <= self.len());
        let mut done = 0;
        while done < out.len() {
            let at = start + done;
            let n = (PAGE_BYTES - at % PAGE_BYTES).min(out.len() - done);
            self.read_in_page(at, &mut out[done..done + n]);
            done += n;
        }
    }

    /// The same of bytes that lie in one page.
    fn read_in_page(&self, at: usize, out: &mut [u8])
        requires inside { at + length out.old ≤ length self.now }
        requires page { at % 4096 + length out.old ≤ 4096 }
        requires some { 0 < length out.old }
        ensures { out.new ≡ take (length out.old) (drop at self.now) }
    {
        let from = at % PAGE_BYTES;
        match &self.blocks[at / PAGE_BYTES] {
            Some(block) => out.copy_from_slice(&block.as_slice()[from..from + out.len()]),
            None => self.base.read(at, out),
        }
    }

    /// The bytes from `at` on, at most `most` and up to the end of their page.
    pub(crate) fn share(&self, alloc: Global, at: usize, most: usize) -> Result<Piece, AllocError>
        requires inside { at + most ≤ length self.now }
        requires some { 0 < most }
        ensures bytes { IfOk result (λ piece. piece ≡ take (length piece) (drop at self.now)) }
        ensures length { IfOk result (λ piece. length piece ≡ min most (4096 - at % 4096)) }
    {
        let page = at / PAGE_BYTES;
        let from = at % PAGE_BYTES;
        let length = most.min(PAGE_BYTES - from);
        let block = share_page(alloc, &self.blocks[page], &self.base, page * PAGE_BYTES)?;
        Ok(Piece::of(block, from, length))
    }

    /// Writes these bytes from `start` on.
    pub(crate) fn write(&mut self, start: usize, bytes: &[u8])
        requires { start + length bytes.now ≤ length self.old }
        ensures { self.new ≡ spliced start bytes.now self.old }
    {
        prove!(start <= self.len());
        let mut done = 0;
        while done < bytes.len() {
            let at = start + done;
            let n = (PAGE_BYTES - at % PAGE_BYTES).min(bytes.len() - done);
            self.write_in_page(at, &bytes[done..done + n]);
            done += n;
        }
    }

    /// The same of bytes that lie in one page.
    fn write_in_page(&mut self, at: usize, bytes: &[u8])
        requires inside { at + length bytes.now ≤ length self.old }
        requires page { at % 4096 + length bytes.now ≤ 4096 }
        requires some { 0 < length bytes.now }
        ensures { self.new ≡ spliced at bytes.now self.old }
    {
        let alloc = *self.blocks.allocator();
        let page = at / PAGE_BYTES;
        let block = mem::replace(&mut self.blocks[page], None);
        self.blocks[page] = write_page(
            alloc,
            block,
            &mut self.base,
            page * PAGE_BYTES,
            at % PAGE_BYTES,
            bytes,
        );
    }

    /// Writes zeros over a page.
    pub(crate) fn zero(&mut self, page: u32)
        requires { 4096 * page + 4096 ≤ length self.old }
        ensures { self.new ≡ take (page * 4096) self.old ++ replicate 4096 0 ++ drop (page * 4096 + 4096) self.old }
    {
        let page = page as usize;
        self.blocks[page] = None;
        self.base.zero(page * PAGE_BYTES, PAGE_BYTES);
    }
}

/// Writes these bytes over the page that begins at `start`, from its byte `from` on, and gives the block that it has then. A block
/// that others share stays as it is, and the page gets another.
fn write_page(
    alloc: Global,
    block: Option<Block>,
    base: &mut LazyBytes,
    start: usize,
    from: usize,
    bytes: &[u8],
) -> Option<Block>
    requires inside { start + 4096 ≤ length base.old }
    requires page { from + length bytes.now ≤ 4096 }
    requires fits { start + from < 2 ^ 64 }
    ensures { IsWritten start from bytes.now block result base.old base.new }
{
    let Some(mut block) = block else {
        return write_base(alloc, base, start, from, bytes);
    };
    if block.write(from, bytes) {
        return Some(block);
    }
    base.write(start, block.as_slice());
    write_base(alloc, base, start, from, bytes)
}

/// The same of a page without a block. For want of memory it gets none.
fn write_base(
    alloc: Global,
    base: &mut LazyBytes,
    start: usize,
    from: usize,
    bytes: &[u8],
) -> Option<Block>
    requires inside { start + 4096 ≤ length base.old }
    requires page { from + length bytes.now ≤ 4096 }
    requires fits { start + from < 2 ^ 64 }
    ensures { IsWritten start from bytes.now None result base.old base.new }
{
    match block_of(alloc, base, start, from, bytes) {
        Ok(block) => Some(block),
        Err(_) => {
            base.write(start + from, bytes);
            None
        }
    }
}

/// A block of the page that begins at `start`, with these bytes from its byte `from` on.
fn block_of(
    alloc: Global,
    base: &LazyBytes,
    start: usize,
    from: usize,
    bytes: &[u8],
) -> Result<Block, AllocError>
    requires inside { start + 4096 ≤ length base.now }
    requires page { from + length bytes.now ≤ 4096 }
    ensures { IfOk result (λ block. block ≡ spliced from bytes.now (take 4096 (drop start base.now))) }
{
    let mut page = page_of(alloc, base, start)?;
    overwrite(&mut page, from, bytes);
    Block::of(alloc, page)
}

/// The bytes of the page that begins at `start`.
fn page_of(alloc: Global, base: &LazyBytes, start: usize) -> Result<Vec<u8>, AllocError>
    requires { start + 4096 ≤ length base.now }
    ensures { IfOk result (λ page. page.items ≡ take 4096 (drop start base.now)) }
{
    let mut page = zeros(alloc, PAGE_BYTES)?;
    base.read(start, page.as_mut_slice());
    Ok(page)
}

/// The block of the page that begins at `start`, or one with its bytes; none where they are all 0.
fn share_page(
    alloc: Global,
    block: &Option<Block>,
    base: &LazyBytes,
    start: usize,
) -> Result<Option<Block>, AllocError>
    requires { start + 4096 ≤ length base.now }
    ensures bytes { IfOk result (λ shared. shared_bytes shared ≡ page_of block.now base.now start) }
    ensures size { IfOk result (λ shared. length (shared_bytes shared) ≡ 4096) }
{
    match block {
        Some(block) => {
            let shared = block.share()?;
            Ok(Some(shared))
        }
        None => share_base(alloc, base, start),
    }
}

/// The same of a page without a block.
fn share_base(alloc: Global, base: &LazyBytes, start: usize) -> Result<Option<Block>, AllocError>
    requires { start + 4096 ≤ length base.now }
    ensures bytes { IfOk result (λ shared. shared_bytes shared ≡ page_of None base.now start) }
    ensures size { IfOk result (λ shared. length (shared_bytes shared) ≡ 4096) }
{
    if base.is_zero_from(start) {
        return Ok(None);
    }
    let page = page_of(alloc, base, start)?;
    let block = Block::of(alloc, page)?;
    Ok(Some(block))
}

/// So many pages without a block.
fn none_of(alloc: Global, count: usize) -> Result<Vec<Option<Block>>, AllocError>
    ensures { IfOk result (λ blocks. blocks.items ≡ replicate count None) }
{
    let mut blocks = Vec::with_capacity(alloc, count)?;
    for _page in 0..count {
        blocks.push(None)?;
    }
    Ok(blocks)
}
