//! The tickets of what a client has begun.

ghost use Rattle.std.specs.Prelude.{◌≡◌, ◌<◌, ◌∷◌, ◌++◌, [], true, length, IfNone, IfOk, IfSome, OnOk};
ghost use Rattle.std.specs.List.{list_all};
ghost use Rattle.vg_client.specs.Accounts.{is_below};

use std::alloc::{AllocError, Global};
use std::collections::VecDeque;
use std::marker::Model;
use std::sync::Wait;
use vg_driver::Ticket;

/// The tickets of what is begun, in its order, and for each lane an ordinal that none of them passes.
#[derive(Drop)]
pub(crate) struct Tickets {
    tickets: VecDeque<Ticket>,
    tops: Vec<u64>,
}

impl Model for Tickets {
    ghost use Rattle.std.specs.VecDeque.{deque_capacity};
    ghost use Rattle.vg_client.specs.Accounts.{AreUnder, BegunTickets};

    ghost Value = { BegunTickets };

    ghost view = { λ t. record { items = t.tickets.items; capacity = deque_capacity t.tickets } };

    ghost invariant = { λ t. AreUnder t.tops.items t.tickets.items };
}

impl Tickets {
    /// Nothing is begun.
    pub(crate) fn new(alloc: Global) -> Result<Tickets, AllocError>
        ensures { IfOk result (λ tickets. tickets.items ≡ []) }
    {
        Ok(Tickets {
            tickets: VecDeque::new(alloc),
            tops: vec![in alloc; 0; 66]?,
        })
    }

    /// Waits for nothing: the ticket stands behind all of these that are of its lane. The ordinals of a lane rise; were it
    /// otherwise, this would wait without end.
    pub(crate) fn see_last<R: Wait>(&self, rt: &R, ticket: &Ticket)
        ensures { list_all (is_below ticket.now) self.now.items ≡ true }
    {
        if self.tops[ticket.fence.lane() as usize] < ticket.fence.ordinal() {
            return;
        }
        for _ in rt.forever() {}
        unreachable!()
    }

    /// There is room for one more.
    pub(crate) fn reserve(&mut self) -> Result<(), AllocError>
        ensures room { OnOk result (length self.new.items < self.new.capacity) }
        ensures same { self.new.items ≡ self.old.items }
    {
        self.tickets.reserve(1)
    }

    /// One more.
    pub(crate) fn push_reserved(&mut self, ticket: Ticket)
        requires { length self.old.items < self.old.capacity }
        ensures { self.new.items ≡ self.old.items ++ ticket ∷ [] }
    {
        let lane = ticket.fence.lane() as usize;
        self.tops[lane] = ticket.fence.ordinal().max(self.tops[lane]);
        self.tickets.push_back_reserved(ticket);
    }

    /// The first of them is taken out.
    pub(crate) fn pop_front(&mut self) -> Option<Ticket>
        ensures first { IfSome result (λ ticket. self.old.items ≡ ticket ∷ self.new.items) }
        ensures none { IfNone result (self.old.items ≡ []) }
        ensures empty { IfNone result (self.new.items ≡ []) }
    {
        self.tickets.pop_front()
    }
}
