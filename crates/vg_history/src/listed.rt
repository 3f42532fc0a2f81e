//! A list that only proofs read. It takes no memory, and what makes it does nothing at run time.

ghost use Rattle.std.specs.Prelude.{◌≡◌, List, [], ◌∷◌, ◌++◌};
ghost use Rattle.std.specs.Borrow.{ftrue};

use std::marker::{Model, PhantomData, Send};

/// A clause reads what is in it as `items`.
#[derive(Drop)]
pub(crate) struct Listed<T> {
    of: PhantomData<T>,
    pub(crate) ghost items: { List T },
}

impl<T> Model for Listed<T> {
    ghost also_owns = { λ _. ftrue };
}

// It owns nothing.
unsafe impl<T: Send> Send for Listed<T> {}

impl<T> Listed<T> {
    /// A list of nothing.
    pub(crate) fn new() -> Listed<T>
        ensures { result.items ≡ [] }
    {
        Listed { of: PhantomData }
    }

    /// The same list with something behind it.
    pub(crate) fn and(&self, item: &T) -> Listed<T>
        ensures { result.items ≡ self.now.items ++ item.now ∷ [] }
    {
        Listed { of: PhantomData }
    }
}
