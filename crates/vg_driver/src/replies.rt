//! What came back and nobody has taken yet.

ghost use Rattle.std.specs.Prelude.{IfSome};
ghost use Rattle.vg_driver.specs.Halves.{IsOf};

use crate::back::Back;
use slab::Slab;
use std::alloc::{AllocError, Global};
use vg_book::Naming;
use vg_history::Machine;

/// A place for each command that was published and whose reply nobody has taken yet.
#[derive(Drop)]
pub(crate) struct Replies<M: Machine, B: Naming> {
    replies: Slab<Option<Back<M, B>>>,
    /// By head descriptors: the place of the command that was published there last.
    places: Vec<usize>,
}

impl<M: Machine, B: Naming> Replies<M, B> {
    /// Nothing was published.
    pub(crate) fn new(alloc: Global) -> Replies<M, B> {
        Replies {
            replies: Slab::new(alloc),
            places: Vec::new(alloc),
        }
    }

    /// Keeps a place for the reply of the command that is published at this head.
    pub(crate) fn keep_place(&mut self, head: u16) -> Result<usize, AllocError> {
        let head = head as usize;
        if self.places.len() <= head {
            self.places.resize(head + 1, 0)?;
        }
        let place = self.replies.insert(None)?;
        self.places[head] = place;
        Ok(place)
    }

    /// Puts what came back of the command that was published at this head to its place. It takes no memory.
    pub(crate) fn put(&mut self, head: u16, back: Back<M, B>) {
        let Some(&place) = self.places.get(head as usize) else {
            return;
        };
        if let Some(reply) = self.replies.get_mut(place) {
            *reply = Some(back);
        }
    }

    /// Takes what came of a client's call out of its place, if it is there. Else all stays.
    pub(crate) fn take(&mut self, place: usize, client: u32, call: u64) -> Option<Back<M, B>>
        ensures { IfSome result (IsOf client call) }
    {
        match self.replies.get(place) {
            Some(Some(back)) if back.is_of(client, call) => self.replies.try_remove(place)?,
            _ => None,
        }
    }
}
