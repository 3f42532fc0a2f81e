//! Those of version 2 of the journal, and of the scripts, whose runs write it.

/// The most pixels in a row of a display or of a buffer.
pub const MOST_WIDTH: u32 = 1920;

/// The most rows of a display or of a buffer.
pub const MOST_HEIGHT: u32 = 1080;

/// The most bytes of a buffer: four for each of its pixels.
pub const MOST_BYTES: u32 = 4 * MOST_WIDTH * MOST_HEIGHT;

/// How often bytes are stored one behind another at the most: as often as a buffer has pixels.
pub const MOST_TIMES: u32 = MOST_WIDTH * MOST_HEIGHT;

/// The most clients.
pub const MOST_CLIENTS: u32 = 32;

/// The most guest pages that the buffers of a script ask for.
pub const MOST_ASKED: u32 = 15_000_000;

/// The most bytes of a journal that is read.
pub const MOST_JOURNAL: usize = 2_147_483_648;
