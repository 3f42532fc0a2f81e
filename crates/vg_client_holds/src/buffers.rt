//! The buffers that a client holds, by their keys.

ghost use Rattle.std.specs.Prelude.{◌≡◌, ◌-◌, ◌<◌, [], ◌∷◌, ◌++◌, true, length, take, IfSome, OnOk, OnErr};
ghost use Rattle.std.specs.List.{list_any, position, remove};
ghost use Rattle.vg_client_holds.specs.ForeignWithin.{AreOwnPages};
ghost use Rattle.vg_client_holds.specs.Holds as holding;
ghost use Rattle.vg_client_holds.specs.Holds.{has_key};
ghost use Rattle.vg_share.specs.Lists.{without_first};

use std::alloc::{AllocError, Global};
use std::collections::VecDeque;
use std::marker::Model;
use vg_share::PageList;

/// Keys and guest pages of buffers. A clause sees it as the list of these pairs, in the order in which they came.
#[derive(Drop)]
pub struct Buffers {
    pairs: VecDeque<(u32, PageList)>,
}

impl Model for Buffers {
    ghost use Rattle.std.specs.Prelude.{ℕ, List};

    ghost Value = { List (ℕ × List ℕ) };

    ghost view = { λ b. b.pairs.items };
}

impl Buffers {
    /// No buffers.
    pub(crate) fn new(alloc: Global) -> Buffers
        ensures { result ≡ [] }
    {
        Buffers {
            pairs: VecDeque::new(alloc),
        }
    }

    /// Adds a buffer behind the others.
    pub fn push(&mut self, key: u32, pages: PageList) -> Result<(), AllocError>
        ensures ok { OnOk result (self.new ≡ self.old ++ (key, pages) ∷ []) }
        ensures err { OnErr result (self.new ≡ self.old) }
    {
        match self.pairs.push_back((key, pages)) {
            Ok(()) => Ok(()),
            Err(_) => Err(AllocError),
        }
    }

    /// Takes the last buffer away, if there is one.
    pub fn pop(&mut self)
        ensures { self.new ≡ take (length self.old - 1) self.old }
    {
        self.pairs.pop_back();
    }

    /// Takes the first buffer with this key away, if there is one.
    pub fn remove(&mut self, key: u32)
        ensures { self.new ≡ without_first (has_key key) self.old }
    {
        if let Some(index) = self.first_place(key) {
            remove_at(&mut self.pairs, index);
        }
    }

    /// Where the first buffer with this key stands, if there is one.
    fn first_place(&self, key: u32) -> Option<usize>
        ensures place { result ≡ position (has_key key) self.now }
        ensures within { IfSome result (λ index. index < length self.now) }
    {
        self.pairs.iter().position(|pair| pair.0 == key)
    }

    /// Whether there is a buffer of this key.
    pub(crate) fn has(&self, key: u32) -> bool
        ensures { result ≡ list_any (has_key key) self.now }
    {
        self.pages_by_halving(key).is_some() || self.has_some(key)
    }

    /// The same, by looking at one after another.
    fn has_some(&self, key: u32) -> bool
        ensures { result ≡ list_any (has_key key) self.now }
    {
        self.pairs.iter().any(|pair| pair.0 == key)
    }

    /// The pages of a buffer of this key. It finds one where the keys rise, and may find none where they don't.
    pub(crate) fn pages_by_halving(&self, key: u32) -> Option<&[u32]>
        ensures there { IfSome result (λ pages. list_any (has_key key) self.now ≡ true) }
        ensures pages { IfSome result (λ pages. AreOwnPages key pages.now self.now) }
    {
        let pair = self.pairs.get(self.place(key))?;
        if pair.0 == key {
            Some(pair.1.as_slice())
        } else {
            None
        }
    }

    /// How many keys stand in front of those that are at least this one, where the keys rise.
    fn place(&self, key: u32) -> usize {
        self.pairs.partition_point(|pair| pair.0 < key)
    }

    /// All of them, in two parts.
    pub(crate) fn parts(&self) -> (&[(u32, PageList)], &[(u32, PageList)])
        ensures { result.0.now ++ result.1.now ≡ self.now }
    {
        self.pairs.as_slices()
    }
}

/// Takes the buffer in this place away. Those on its shorter side move.
fn remove_at(pairs: &mut VecDeque<(u32, PageList)>, index: usize)
    requires { index < length pairs.old.items }
    ensures { pairs.new.items ≡ remove pairs.old.items index }
{
    pairs.remove(index).unwrap();
}
