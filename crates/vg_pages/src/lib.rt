//! Guest memory, page by page.
#![tactic(auto)]

ghost use Rattle.std.specs.Prelude.{◌≡◌};
ghost use Rattle.vg_pages.specs.Memory as memory_words;

mod block;
mod blocks;
mod flags;
mod lazy;
mod lent;
mod memory;
mod piece;
mod threads;

pub use flags::{any_flagged, mark};
pub use lent::LentBytes;
pub use memory::Pages;
pub use piece::Piece;
pub use threads::pages_may_be_sent;

/// How many bytes a page has.
pub const PAGE_BYTES: usize = 4_096;

/// The address of the first byte of page 0.
pub const MEMORY_START: u64 = 1_048_576;

/// The address of the first byte of a page, whether there is such a page or not.
pub fn page_address(page: u32) -> u64
    ensures { result ≡ memory_words.page_address page }
{
    MEMORY_START + PAGE_BYTES as u64 * u64::from(page)
}
