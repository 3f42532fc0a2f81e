//! All the bytes of a source.

ghost use Rattle.std.specs.Prelude.{◌≡◌, ◌<◌, ◌≤◌, ◌+◌, length, IfOk, OnOk, IfSome, IsErrOf, vec_len};
ghost use Rattle.vg_io.specs.Streams.{Rose, Gives, GivesUpTo, GivesCount, IsAtEnd};
ghost use Rattle.vg_io.specs.declared.reading.ReadError.TheVariants.{Memory, Fault};

use super::{Failed, Source};
use std::alloc::{AllocError, Global};

/// How many bytes are asked of a source at once, at the most.
const PIECE: usize = 65_536;

/// Why the bytes of a source were not had.
#[derive(Debug, Clone, Copy, PartialEq, Eq)]
pub enum ReadError {
    /// There was no memory for the bytes.
    Memory,
    /// A read failed.
    Fault,
    /// There are more bytes than the limit.
    TooLong,
}

impl From<AllocError> for ReadError {
    ghost from_gives = { λ _ e. e ≡ Memory };

    fn from(_e: AllocError) -> ReadError {
        ReadError::Memory
    }
}

impl From<Failed> for ReadError {
    ghost from_gives = { λ _ e. e ≡ Fault };

    fn from(_e: Failed) -> ReadError {
        ReadError::Fault
    }
}

/// All the bytes of `source`, at most `limit` of them.
///
/// It reads in pieces of at most 65,536 bytes, and takes at most one byte past the limit, which makes
/// the answer `TooLong`. Only want of memory comes without a cause.
#[tactic(auto, using(crate::proofs::StreamLemmas::gives_both))]
pub fn read_all<S: Source>(
    alloc: Global,
    source: &mut S,
    limit: usize,
) -> Result<Vec<u8>, ReadError>
    ensures all { IfOk result (λ v. Gives (S.left source.old) (S.left source.new) v.items) }
    ensures end { OnOk result (IsAtEnd (S.left source.new)) }
    ensures within { IfOk result (λ v. length v.items ≤ limit) }
    ensures long { IsErrOf result ReadError.TooLong →
        IfSome (S.left source.old) (λ xs. limit < length xs) }
    ensures fault { IsErrOf result ReadError.Fault → Rose (S.faults source.old) (S.faults source.new) }
    ensures early { IsErrOf result ReadError.Fault → GivesUpTo (S.left source.old) (S.left source.new) limit }
    ensures same { OnOk result (S.faults source.new ≡ S.faults source.old) }
    ensures same_long { IsErrOf result ReadError.TooLong → S.faults source.new ≡ S.faults source.old }
    ensures same_memory { IsErrOf result ReadError.Memory → S.faults source.new ≡ S.faults source.old }
    ensures count { S.faults source.old ≤ S.faults source.new }

    // What was taken: never a second byte past the limit.
    ensures past { IsErrOf result ReadError.TooLong →
        GivesCount (S.left source.old) (S.left source.new) (limit + 1) }
    ensures taken { GivesUpTo (S.left source.old) (S.left source.new) (limit + 1) }
{
    let mut piece = zeroed(alloc, limit.min(PIECE - 1) + 1)?;
    let mut bytes = Vec::new(alloc);
    while bytes.len() <= limit {
        // No read asks for a second byte past the limit.
        piece.truncate((limit - bytes.len()).saturating_add(1));
        let n = source.read(piece.as_mut_slice())?;
        if n == 0 {
            return Ok(bytes);
        }
        bytes.extend_from_slice(&piece[..n])?;
    }
    Err(ReadError::TooLong)
}

// A function of its own, so that no goal sees how many zeros there are.
fn zeroed(alloc: Global, size: usize) -> Result<Vec<u8>, AllocError>
    ensures { IfOk result (λ v. vec_len v ≡ size) }
{
    vec![in alloc; 0u8; size]
}
