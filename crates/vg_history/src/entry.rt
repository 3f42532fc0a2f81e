//! One entry of a history.

ghost use Rattle.std.specs.Prelude.{◌≡◌};
ghost use Rattle.vg_history.specs.Entries.{client_of, call_of};

use crate::machine::Machine;

/// An act of a client, or a command that was run for it, with the client's own number for it, from 1, and the reply.
#[derive(Drop)]
pub enum Entry<M: Machine> {
    Act {
        client: u32,
        call: u64,
        act: M::Act,
        reply: M::ActReply,
    },
    Command {
        client: u32,
        call: u64,
        request: M::Request,
        reply: M::Reply,
    },
}
