//! Those of version 1 of the journal.

/// The most pixels in a row of a display.
pub const MOST_WIDTH: u32 = 640;

/// The most rows of a display.
pub const MOST_HEIGHT: u32 = 480;

/// The most clients.
pub const MOST_CLIENTS: u32 = 16;
