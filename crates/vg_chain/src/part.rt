//! The parts of a request and of the room for its response, each of which one descriptor refers to.

ghost use Rattle.std.specs.Prelude.{◌≡◌, ◌+◌, ◌-◌, ◌/◌, ◌≤◌, ◌++◌, length, slice_get};
ghost use Rattle.vg_chain.specs.Made as made;
ghost use Rattle.vg_chain.specs.Made.{pieces, room_of, parts_of, inner_of, AreSoMany, AreSoManyPieces};
ghost use Rattle.vg_chain.specs.Space.{most_request, room_at, IsPlaced};

use crate::space::{HEADER_SIZE, ROOM_OFFSET};

/// Where a request stands, with the room for its response.
#[derive(Clone, Copy, Debug, PartialEq, Eq)]
pub struct Extent {
    /// The address of the request's first byte. The room begins `ROOM_OFFSET` bytes above it, the
    /// tables `TABLES_OFFSET` bytes.
    pub base: u64,
    /// The number of the request's bytes.
    pub request: u32,
    /// The number of bytes that the room has.
    pub room: u32,
}

/// Bytes to which one descriptor refers.
#[derive(Clone, Copy)]
pub(crate) struct Part {
    /// The address of the first byte.
    pub addr: u64,
    /// How many there are.
    pub len: u32,
    /// Whether the device writes them.
    pub writes: bool,
}

/// How many pieces of this size make up `request` bytes, if there are at most `most`.
fn count_pieces(most: u8, size: u32, request: u32) -> u16
    requires { most ≤ 8 }
    ensures count { AreSoManyPieces most size request result }
    ensures bound { result ≤ most }
{
    let mut left = request;
    let mut count = 0;
    for _piece in 0..most {
        if left > 0 {
            count += 1;
        }
        left = left.saturating_sub(size);
    }
    count
}

/// How many bytes each of `most` pieces has, the last one perhaps fewer.
fn piece_size(most: u8, request: u32) -> u32
    requires { 1 ≤ most }
    ensures { result ≡ (request + (most - 1)) / most }
{
    ((u64::from(request) + u64::from(most - 1)) / u64::from(most)) as u32
}

/// How many descriptors a request in at most `most` pieces has, with its room.
pub(crate) fn count_parts(most: u8, request: u32, room: u32) -> u16
    requires some { 1 ≤ most }
    requires few { most ≤ 8 }
    ensures count { AreSoMany most request room result }
    ensures bound { result ≤ most + 1 }
{
    let count = count_pieces(most, piece_size(most, request), request);
    if room > 0 {
        count + 1
    } else if count == 0 {
        1
    } else {
        count
    }
}

/// The part at this place of those that follow one another from `addr`: at most `most` pieces of this
/// size, which make up `request` bytes, then the room.
fn part_at(most: u8, size: u32, addr: u64, request: u32, extent: &Extent, at: u16) -> Option<Part>
    requires few { most ≤ 8 }
    requires addr { addr + request ≤ room_at extent.now.base }
    requires base { IsPlaced extent.now.base }
    ensures { result ≡ slice_get (pieces most size addr request ++ room_of extent.now.room extent.now.base) at }
{
    let count = count_pieces(most, size, request);
    if at < count {
        let before = u64::from(at) * u64::from(size);
        Some(Part {
            addr: addr + before,
            len: size.min((u64::from(request) - before) as u32),
            writes: false,
        })
    } else if at == count && extent.room > 0 {
        Some(Part {
            addr: extent.base + ROOM_OFFSET,
            len: extent.room,
            writes: true,
        })
    } else {
        None
    }
}

/// The part at this place of a request in at most `most` pieces.
pub(crate) fn part_of(most: u8, extent: &Extent, at: u16) -> Option<Part>
    requires some { 1 ≤ most }
    requires few { most ≤ 8 }
    requires request { extent.now.request ≤ most_request }
    requires base { IsPlaced extent.now.base }
    ensures { result ≡ slice_get (parts_of most extent.now.request extent.now.room extent.now.base) at }
{
    if extent.request == 0 && extent.room == 0 && at == 0 {
        return Some(Part {
            addr: extent.base,
            len: 0,
            writes: false,
        });
    }
    let size = piece_size(most, extent.request);
    part_at(most, size, extent.base, extent.request, extent, at)
}

/// The part at this place of those after the header.
pub(crate) fn rest_of(extent: &Extent, at: u16) -> Option<Part>
    requires request { extent.now.request ≤ most_request }
    requires base { IsPlaced extent.now.base }
    ensures { result ≡ slice_get (made.rest_of extent.now.request extent.now.room extent.now.base) at }
{
    let left = extent.request.saturating_sub(HEADER_SIZE);
    part_at(
        1,
        left,
        extent.base + u64::from(HEADER_SIZE),
        left,
        extent,
        at,
    )
}

/// How many they are.
pub(crate) fn count_rest(extent: &Extent) -> u16
    ensures count { result ≡ length (made.rest_of extent.now.request extent.now.room extent.now.base) }
    ensures bound { result ≤ 2 }
{
    let left = extent.request.saturating_sub(HEADER_SIZE);
    let count = count_pieces(1, left, left);
    if extent.room > 0 { count + 1 } else { count }
}
