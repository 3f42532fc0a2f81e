//! Bytes that are read and written by the segments of a chain.

ghost use Rattle.std.specs.Prelude.{◌≡◌, ℕ, ◌+◌, ◌≤◌, [], ◌∷◌, length, take, min, IfErr, IfOk};
ghost use Rattle.vg_chain.specs.Space.{most_room};
ghost use Rattle.vg_chain.specs.Made.{Covers};
ghost use Rattle.vg_cargo.specs.Walked.{IsFront};

use std::alloc::{AllocError, Global};
use vg_chain::Segment;

/// The bytes of a memory that begins at `base`, by the segments that it consists of: moved where it is one, and else copied. For
/// want of memory they come back as they were.
pub(crate) fn read_by(
    alloc: Global,
    memory: Vec<u8>,
    base: u64,
    segments: &[Segment],
) -> Result<Vec<u8>, Vec<u8>>
    requires { Covers base (length memory.items) segments.now }
    ensures read { IfOk result (λ bytes. bytes.items ≡ memory.items) }
    ensures err { IfErr result (λ bytes. bytes.items ≡ memory.items) }
{
    if segments.len() == 1 {
        return Ok(cut(memory, base, &segments[0]));
    }
    match gather(alloc, memory.as_slice(), base, segments) {
        Ok(bytes) => Ok(bytes),
        Err(_) => Err(memory),
    }
}

/// The bytes of a memory that begins at `base`, by its one segment.
fn cut(memory: Vec<u8>, base: u64, segment: &Segment) -> Vec<u8>
    requires { Covers base (length memory.items) (segment.now ∷ []) }
    ensures { result.items ≡ memory.items }
{
    let mut bytes = memory;
    let from = (segment.addr - base) as usize;
    bytes.truncate(from + segment.len as usize);
    bytes
}

/// The same, copied.
fn gather(
    alloc: Global,
    memory: &[u8],
    base: u64,
    segments: &[Segment],
) -> Result<Vec<u8>, AllocError>
    requires { Covers base (length memory.now) segments.now }
    ensures { IfOk result (λ bytes. bytes.items ≡ memory.now) }
{
    let mut bytes = Vec::with_capacity(alloc, memory.len())?;
    for segment in segments {
        let from = (segment.addr - base) as usize;
        bytes.extend_from_slice(&memory[from..from + segment.len as usize])?;
    }
    Ok(bytes)
}

/// How many bytes the segments have.
pub(crate) fn total(segments: &[Segment]) -> u32
    requires { (addr : ℕ) × (room : ℕ) × Covers addr room segments.now × (room ≤ most_room) }
    ensures { (addr room : ℕ) → Covers addr room segments.now → result ≡ room }
{
    let mut total = 0;
    for segment in segments {
        total += segment.len;
    }
    total
}

/// Writes bytes into a room that begins at `start`, by the segments that it consists of.
pub(crate) fn scatter(room: &mut [u8], start: u64, segments: &[Segment], bytes: &[u8])
    requires segments { Covers start (length room.old) segments.now }
    requires few { length bytes.now ≤ length room.old }
    ensures { take (length bytes.now) room.new ≡ bytes.now }
{
    for segment in segments {
        let from = (segment.addr - start) as usize;
        write_part(room, bytes, from, from + segment.len as usize);
    }
}

/// Writes the bytes from one place to another where they belong, as far as they go.
fn write_part(room: &mut [u8], bytes: &[u8], from: usize, to: usize)
    requires order { from ≤ to }
    requires few { length bytes.now ≤ length room.old }
    ensures { IsFront room.old bytes.now from → IsFront room.new bytes.now to }
{
    let start = from.min(bytes.len());
    let end = to.min(bytes.len());
    room[start..end].copy_from_slice(&bytes[start..end]);
}
