//! What crosses a desk: a pass beside its request, and what comes back of it.

ghost use Rattle.std.specs.Prelude.{◌≡◌};

use crate::counter::{Counter, Request};
use std::marker::Model;
use vg_book::{DonePass, Naming, Pass};
use vg_history::Machine;

/// A pass, and its request. A clause sees it as the pass.
#[derive(Drop)]
pub struct Sent<B: Naming> {
    pass: Pass<Counter, B>,
    request: Request,
}

impl<B: Naming> Model for Sent<B> {
    ghost use Rattle.std.specs.Prelude.{◌≡◌};
    ghost use Rattle.vg_book_uses.specs.Passes.{Pa};

    ghost Value = { Pa };

    ghost view = { λ s. s.pass };

    ghost invariant = { λ s. s.request ≡ s.pass.order.request };
}

impl<B: Naming> Sent<B> {
    pub fn of(pass: Pass<Counter, B>, request: Request) -> Sent<B>
        requires { request ≡ pass.order.request }
        ensures { result ≡ pass }
    {
        Sent { pass, request }
    }

    /// The lane of its request, and the ordinal there.
    pub fn tag(&self) -> (u32, u64)
        ensures { result ≡ ⟦<Counter as Machine>⟧.tagged self.now.order.request }
    {
        self.pass.tag()
    }

    /// The pass, and its request.
    pub fn apart(self) -> (Pass<Counter, B>, Request)
        ensures { (result.0 ≡ self) × (result.1 ≡ self.order.request) }
    {
        let Sent { pass, request } = self;
        (pass, request)
    }
}

/// A pass that was run, and its reply. A clause sees it as the pass.
#[derive(Drop)]
pub struct Answered<B: Naming> {
    done: DonePass<Counter, B>,
    reply: u64,
}

impl<B: Naming> Model for Answered<B> {
    ghost use Rattle.std.specs.Prelude.{◌≡◌};
    ghost use Rattle.vg_book_uses.specs.Passes.{Do};

    ghost Value = { Do };

    ghost view = { λ a. a.done };

    ghost invariant = { λ a. a.reply ≡ a.done.reply };
}

impl<B: Naming> Answered<B> {
    pub fn of(done: DonePass<Counter, B>, reply: u64) -> Answered<B>
        requires { reply ≡ done.reply }
        ensures { result ≡ done }
    {
        Answered { done, reply }
    }

    /// The number of the client that made it.
    pub fn client(&self) -> u32
        ensures { result ≡ self.now.order.client }
    {
        self.done.client()
    }

    /// The client's number for it.
    pub fn call(&self) -> u64
        ensures { result ≡ self.now.order.call }
    {
        self.done.call()
    }

    /// The pass, and its reply.
    pub fn apart(self) -> (DonePass<Counter, B>, u64)
        ensures { (result.0 ≡ self) × (result.1 ≡ self.reply) }
    {
        let Answered { done, reply } = self;
        (done, reply)
    }
}

/// What comes back of a pass: it was run, or it wasn't.
#[derive(Drop)]
pub enum Came<B: Naming> {
    Done(Answered<B>),
    Unrun(Pass<Counter, B>),
}
