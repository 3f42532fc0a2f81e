//! The guest pages of a buffer, in one list that all who hold the buffer share.

ghost use Rattle.std.specs.Prelude.{◌≡◌, IfOk};

use std::alloc::{AllocError, Global};
use std::marker::Model;
use std::sync::Arc;

/// Guest pages, rising. Whoever shares them has the same list, in one place of memory.
#[derive(Debug, Drop)]
pub struct PageList {
    pages: Arc<Vec<u32>>,
}

impl Model for PageList {
    ghost use Rattle.std.specs.Prelude.{ℕ, List};
    ghost use Rattle.std.specs.Arc.{arc_value};

    ghost Value = { List ℕ };

    ghost view = { λ l. (arc_value l.pages).items };
}

impl PageList {
    /// A list of these pages, which stay where they are.
    pub fn from_vec(alloc: Global, pages: Vec<u32>) -> Result<PageList, AllocError>
        ensures { IfOk result (λ list. list ≡ pages.items) }
    {
        let pages = Arc::new(alloc, pages)?;
        Ok(PageList { pages })
    }

    /// The same list once more, which takes no memory.
    pub fn share(&self) -> Result<PageList, AllocError>
        ensures { IfOk result (λ list. list ≡ self.now) }
    {
        let pages = self.pages.clone()?;
        Ok(PageList { pages })
    }

    /// The pages.
    pub fn as_slice(&self) -> &[u32]
        ensures { result.now ≡ self.now }
    {
        self.pages.as_slice()
    }
}
