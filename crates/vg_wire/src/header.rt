//! The header that begins each request and each response (VIRTIO 1.2, 5.7.6.7).

ghost use Rattle.std.specs.Prelude.{◌≡◌, ◌<◌, ◌++◌, length, OnErr, OnOk, IsNone, IfSome, ◌↔◌};
ghost use Rattle.vg_list.specs.Front.{HasFront};
ghost use Rattle.vg_wire.specs.Header.{header_of, header_bytes, IsHeader};

use std::alloc::AllocError;
use vg_numbers::{put_u32, put_u64, u32_at, u64_at};

/// A header: 24 bytes, of which the last three are padding.
#[derive(Clone, Copy, Debug, PartialEq, Eq)]
pub struct Header {
    /// The type of the request or response, at byte 0.
    pub kind: u32,
    /// At byte 4: bit 0 is FENCE, bit 1 INFO_RING_IDX.
    pub flags: u32,
    /// At byte 8, eight bytes.
    pub fence_id: u64,
    /// At byte 16.
    pub ctx_id: u32,
    /// At byte 20, one byte.
    pub ring_idx: u8,
}

/// The header at the front of these bytes, of which there may be more. None where there are fewer
/// than 24. Padding is not looked at.
pub fn read_header(bytes: &[u8]) -> Option<Header>
    ensures short { IsNone result ↔ (length bytes.now < 24) }
    ensures fields { IfSome result (λ header. header ≡ header_of bytes.now) }
{
    if bytes.len() < 24 {
        return None;
    }
    Some(Header {
        kind: u32_at(bytes, 0),
        flags: u32_at(bytes, 4),
        fence_id: u64_at(bytes, 8),
        ctx_id: u32_at(bytes, 16),
        ring_idx: bytes[20],
    })
}

/// Adds the 24 bytes of a header, with padding 0. For want of memory a front of them is added.
#[tactic(auto, unfolding(crate::specs::Header::header_bytes), using(vg_list::proofs::FrontLemmas::fronts))]
pub fn put_header(out: &mut Vec<u8>, header: Header) -> Result<(), AllocError>
    ensures bytes { OnOk result (out.new.items ≡ out.old.items ++ header_bytes header) }
    ensures err { OnErr result (HasFront out.old.items out.new.items (header_bytes header)) }
    ensures fits { IsHeader header }
{
    put_u32(out, header.kind)?;
    put_u32(out, header.flags)?;
    put_u64(out, header.fence_id)?;
    put_u32(out, header.ctx_id)?;
    out.extend_from_slice(&[header.ring_idx, 0, 0, 0])
}
