//! A `Vec` that contracts see as the list of its elements.

ghost use Rattle.std.specs.Prelude.{◌≡◌, ◌==◌, ◌<◌, ◌+◌, ◌-◌, List, [], ◌∷◌, ◌++◌, Some, length, take, drop, slice_get, option_to_list, OnOk, OnErr};
ghost use Rattle.std.specs.Borrow.{Lends, sem, Array};
ghost use Rattle.vg_list.specs.Seq.{overwritten};
ghost use Rattle.vg_list.specs.contracts.seq.Seq.{the_row};

use std::alloc::AllocError;
use std::marker::Model;

/// A list of `T`. It is made from a `Vec` and gives it back, and neither takes memory.
///
/// A clause sees it as the list of its elements, so a struct or an enum that holds one is compared by
/// `≡` with what it holds, and not with where that lies in memory.
#[derive(Debug, Drop, Clone)]
pub struct Seq<T> {
    elements: Vec<T>,
}

impl<T> Model for Seq<T> {
    ghost use Rattle.std.specs.Prelude.{List};

    ghost Value = { List T };

    ghost view = { λ s. s.elements.items };
}

impl<T> Seq<T> {
    /// The list of the elements of `elements`.
    pub fn from_vec(elements: Vec<T>) -> Seq<T>
        ensures { result ≡ elements.items }
    {
        Seq { elements }
    }

    /// The elements, in a `Vec` again.
    pub fn into_vec(self) -> Vec<T>
        ensures { result.items ≡ self }
    {
        let Seq { elements } = self;
        elements
    }

    /// The elements.
    pub fn as_slice(&self) -> &[T]
        ensures { result.now ≡ self.now }
    {
        self.elements.as_slice()
    }

    /// The elements, to be written in place.
    pub fn as_mut_slice(&mut self) -> &mut [T]
        ensures* writes_back { sem 𝓛 (Lends (the_row T.row) (Array (T.row) 0) self.entry result (overwritten self.entry.now)) }
        ensures value { result.now ≡ self.old }
    {
        self.elements.as_mut_slice()
    }

    /// Appends an element.
    pub fn push(&mut self, element: T) -> Result<(), AllocError>
    where
        T: Drop,
        ensures ok { OnOk result (self.new ≡ self.old ++ element ∷ []) }
        ensures err { OnErr result (self.new ≡ self.old) }
    {
        self.elements.push(element)?;
        Ok(())
    }

    /// Takes the last element away, if there is one.
    pub fn pop(&mut self) -> Option<T>
        ensures value { self.old ≡ self.new ++ option_to_list result }
        ensures rest { self.new ≡ take (length self.old - 1) self.old }
    {
        self.elements.pop()
    }

    /// Takes away the element at this place; those after it stand one place lower.
    pub fn remove(&mut self, index: usize) -> T
        requires { index < length self.old }
        ensures value { Some result ≡ slice_get self.old index }
        ensures rest { self.new ≡ take index self.old ++ drop (index + 1) self.old }
    {
        self.elements.remove(index)
    }

    /// How many elements there are.
    pub fn len(&self) -> usize
        ensures { result ≡ length self.now }
    {
        self.elements.len()
    }

    /// Whether there are none.
    pub fn is_empty(&self) -> bool
        ensures { result ≡ (length self.now == 0) }
    {
        self.elements.is_empty()
    }
}

/// Two lists are equal where they are as long and each pair of elements is equal.
impl<T: PartialEq> PartialEq for Seq<T> {
    ghost use Rattle.std.specs.Cmp.Lexicographic.{pointwise, lists_per};

    ghost eq = { λ x y. pointwise T.eq x y };

    ghost laws = { lists_per T.laws };

    fn eq(&self, other: &Seq<T>) -> bool {
        self.elements == other.elements
    }
}
