//! What a call made, and what it was answered.

ghost use Rattle.std.specs.Prelude.{◌≡◌, ◌++◌, ◌∷◌, [], IfOk, IsSome, None, OnOk, Some};
ghost use Rattle.vg_client.specs.declared.outcome.Last.TheVariants as lasts;
ghost use Rattle.vg_client.specs.Outcomes as outcomes;

use crate::given::{Added, Given};
use smallvec::SmallVec;
use std::alloc::{AllocError, Global};
use std::marker::Model;
use vg_calls::{ContextRef, NameRef};
use vg_driver::Answer;
use vg_history::Fence;
use vg_machine::ActReply;

/// What the last entry of a call was answered, where it has one.
#[derive(Drop)]
pub enum Last {
    /// It is an act.
    Act { reply: ActReply },
    /// It is a command.
    Command { answer: Answer },
    /// There is no entry yet: the command is begun, and the fence is its.
    Begun { fence: Fence },
}

/// The numbers of a call's entries. A clause sees the list of them. Up to four take no memory.
#[derive(Drop)]
pub struct Numbers {
    numbers: SmallVec<u64, 4>,
}

impl Model for Numbers {
    ghost use Rattle.std.specs.Prelude.{ℕ, List};

    ghost Value = { List ℕ };

    ghost view = { λ n. n.numbers.items };
}

impl Numbers {
    /// The numbers.
    pub fn as_slice(&self) -> &[u64]
        ensures { result.now ≡ self.now }
    {
        self.numbers.as_slice()
    }
}

/// What a call made: the numbers of its entries in the history, from 1 and rising, what the last of them was answered, or the fence
/// of the command that it began, and the name of the buffer, and that of the context, that it made, if it made one.
#[derive(Drop)]
pub struct Outcome {
    pub entries: Numbers,
    pub last: Last,
    pub name: Option<NameRef>,
    pub context: Option<ContextRef>,
}

/// What tasks have given so far: the numbers of their entries, and what the last of them was answered, or what was begun.
#[derive(Drop)]
pub(crate) struct Played {
    pub(crate) entries: SmallVec<u64, 4>,
    pub(crate) last: Option<Last>,
}

impl Played {
    /// Nothing so far, with room for so many entries.
    pub(crate) fn with_room(alloc: Global, room: usize) -> Result<Played, AllocError>
        ensures { IfOk result (λ played. (played.entries.items ≡ []) × (played.last ≡ None)) }
    {
        Ok(Played {
            entries: SmallVec::with_capacity(alloc, room)?,
            last: None,
        })
    }

    /// What one task more has given.
    pub(crate) fn add(&mut self, added: Added) -> Result<(), AllocError>
        ensures entries { OnOk result (self.new.entries.items ≡ self.old.entries.items ++ added.number ∷ []) }
        ensures last { OnOk result (self.new.last ≡ Some (outcomes.last_given added.number added.given)) }
    {
        let Added { number, given } = added;
        self.entries.push(number)?;
        self.last = Some(last_given(number, given));
        Ok(())
    }

    /// A command is begun, and the fence is its.
    pub(crate) fn begin(&mut self, fence: Fence)
        ensures entries { self.new.entries.items ≡ self.old.entries.items }
        ensures last { self.new.last ≡ Some (lasts.Begun fence) }
    {
        self.last = Some(Last::Begun { fence });
    }

    /// The outcome of a call that gave at least one entry, or began a command, and made this name or context.
    pub(crate) fn outcome(self, name: Option<NameRef>, context: Option<ContextRef>) -> Outcome
        requires { IsSome self.last }
        ensures entries { result.entries ≡ self.entries.items }
        ensures last { self.last ≡ Some result.last }
        ensures name { result.name ≡ name }
        ensures context { result.context ≡ context }
    {
        let Played { entries, last } = self;
        Outcome {
            entries: Numbers { numbers: entries },
            last: last.unwrap(),
            name,
            context,
        }
    }
}

/// What an entry of this number was answered.
fn last_given(number: u64, given: Given) -> Last
    ensures { result ≡ outcomes.last_given number given }
{
    match given {
        Given::Denied { reply } => Last::Act { reply },
        Given::Act { reply } => Last::Act { reply },
        Given::Command { reply, .. } => Last::Command {
            answer: Answer {
                entry: number,
                reply,
            },
        },
    }
}
