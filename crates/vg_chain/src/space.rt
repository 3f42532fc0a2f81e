//! Where a request, the room for its response and the indirect tables of its chain stand above its base.

/// From one base to the next there are at least so many bytes.
pub const SPACE: u64 = 65_536;

/// The room begins so many bytes above the base. The request, which stands below it, has no more.
pub const ROOM_OFFSET: u64 = 49_152;

/// The room has at most so many bytes.
pub const MOST_ROOM: u32 = 8_192;

/// The tables begin so many bytes above the base, which is behind the largest room.
pub const TABLES_OFFSET: u64 = ROOM_OFFSET + MOST_ROOM as u64;

/// The bytes of a request's header, which have a descriptor of their own in the shape `Mixed`.
pub const HEADER_SIZE: u32 = 24;
