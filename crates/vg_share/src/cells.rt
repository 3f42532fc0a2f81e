//! The bytes of a buffer, which are spread over its guest pages.

ghost use Rattle.std.specs.Prelude.{◌≡◌, ◌+◌, ◌-◌, ◌*◌, ◌%◌, ◌≤◌, ◌<◌, IfOk, OnErr, OnOk, length, ◌^◌};
ghost use Rattle.vg_pages.specs.Memory.{AreGivable};
ghost use Rattle.vg_share.specs.Cells.{loaded, pages_of, place_in_memory, repeated, stored};

use std::alloc::{AllocError, Global};
use std::cmp::min;
use vg_pages::{PAGE_BYTES, Pages};
use vg_places::zeros;

/// How many pages hold so many bytes.
pub fn pages_of(bytes: u32) -> u32
    ensures { result ≡ pages_of bytes }
{
    bytes.div_ceil(PAGE_BYTES as u32)
}

/// Writes these bytes, so many times one after another, into the buffer with these pages, from `offset` on. For want of memory
/// nothing is written.
pub fn store_times(
    alloc: Global,
    memory: &mut Pages,
    pages: &[u32],
    offset: u32,
    bytes: &[u8],
    times: u32,
) -> Result<(), AllocError>
    requires pages { AreGivable memory.old.taken pages.now }
    requires inside { offset + length bytes.now * times ≤ 4096 * length pages.now }
    requires limit { offset + length bytes.now * times < 2 ^ 32 }
    ensures stored { OnOk result (memory.new ≡ record memory.old { bytes = stored pages.now offset (repeated bytes.now times) memory.old.bytes }) }
    ensures err { OnErr result (memory.new ≡ memory.old) }
{
    if bytes.is_empty() {
        return Ok(());
    }
    let turns = times.min((PAGE_BYTES / bytes.len()) as u32);
    if turns < 2 {
        store_each(memory, pages, offset, bytes, times);
        return Ok(());
    }
    // Few bytes are first made a block of about a page, so that they aren't written one turn at a time.
    let block = repeated(alloc, bytes, turns)?;
    let blocks = times / turns;
    let end = store_each(memory, pages, offset, block.as_slice(), blocks);
    let rest = (times % turns) as usize * bytes.len();
    store(memory, pages, end, &block[..rest]);
    Ok(())
}

/// These bytes, so many times, one after another, at most a page of them.
fn repeated(alloc: Global, bytes: &[u8], times: u32) -> Result<Vec<u8>, AllocError>
    requires { length bytes.now * times ≤ 4096 }
    ensures { IfOk result (λ block. block.items ≡ repeated bytes.now times) }
{
    let mut block = Vec::with_capacity(alloc, bytes.len() * times as usize)?;
    for _turn in 0..times {
        block.extend_from_slice(bytes)?;
    }
    Ok(block)
}

/// Writes these bytes, so many times one after another, into the buffer with these pages, from `offset` on, and gives the offset
/// behind them.
fn store_each(memory: &mut Pages, pages: &[u32], offset: u32, bytes: &[u8], times: u32) -> u32
    requires pages { AreGivable memory.old.taken pages.now }
    requires inside { offset + length bytes.now * times ≤ 4096 * length pages.now }
    requires limit { offset + length bytes.now * times < 2 ^ 32 }
    ensures stored { memory.new ≡ record memory.old { bytes = stored pages.now offset (repeated bytes.now times) memory.old.bytes } }
    ensures end { result ≡ offset + length bytes.now * times }
{
    let mut at = offset;
    for _turn in 0..times {
        store(memory, pages, at, bytes);
        at += bytes.len() as u32;
    }
    at
}

/// Writes `piece` into the buffer with these pages, from `offset` on.
fn store(memory: &mut Pages, pages: &[u32], offset: u32, piece: &[u8])
    requires pages { AreGivable memory.old.taken pages.now }
    requires inside { offset + length piece.now ≤ 4096 * length pages.now }
    ensures { memory.new ≡ record memory.old { bytes = stored pages.now offset piece.now memory.old.bytes } }
{
    let mut done = 0;
    while done < piece.len() {
        let at = offset as usize + done;
        let n = min(PAGE_BYTES - at % PAGE_BYTES, piece.len() - done);
        let start = address(memory, pages, at);
        memory.write(start, &piece[done..done + n]);
        done += n;
    }
}

/// The bytes of the buffer with these pages, as many as said, from `offset` on.
pub fn load(
    alloc: Global,
    memory: &Pages,
    pages: &[u32],
    offset: u32,
    count: u32,
) -> Result<Vec<u8>, AllocError>
    requires pages { AreGivable memory.now.taken pages.now }
    requires inside { offset + count ≤ 4096 * length pages.now }
    ensures { IfOk result (λ bytes. bytes.items ≡ loaded memory.now.bytes pages.now offset count) }
{
    let mut bytes = zeros(alloc, count as usize)?;
    fill(memory, pages, offset, bytes.as_mut_slice());
    Ok(bytes)
}

/// Reads the bytes of the buffer with these pages from `offset` on into `out`, as many as it has.
fn fill(memory: &Pages, pages: &[u32], offset: u32, out: &mut [u8])
    requires pages { AreGivable memory.now.taken pages.now }
    requires inside { offset + length out.old ≤ 4096 * length pages.now }
    ensures { out.new ≡ loaded memory.now.bytes pages.now offset (length out.old) }
{
    let mut done = 0;
    while done < out.len() {
        let at = offset as usize + done;
        let n = min(PAGE_BYTES - at % PAGE_BYTES, out.len() - done);
        let start = address(memory, pages, at);
        memory.read(start, &mut out[done..done + n]);
        done += n;
    }
}

/// The address of byte `at` of the buffer with these pages.
fn address(memory: &Pages, pages: &[u32], at: usize) -> u64
    requires pages { AreGivable memory.now.taken pages.now }
    requires inside { at < 4096 * length pages.now }
    ensures place { result ≡ 1048576 + place_in_memory pages.now at }
    ensures page { place_in_memory pages.now at - at % 4096 + 4096 ≤ length memory.now.bytes }
{
    memory.address(pages[at / PAGE_BYTES]) + (at % PAGE_BYTES) as u64
}
