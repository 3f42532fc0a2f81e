//! The names of a client's contexts.

ghost use Rattle.std.specs.Prelude.{◌≡◌, ◌<◌, ◌^◌, [], OnErr, OnOk};
ghost use Rattle.vg_names.specs.Contexts as names;
ghost use Rattle.vg_names.specs.Contexts.{with_context, with_no_context, without, without_context};
ghost use Rattle.std.specs.List.{position};

use std::alloc::{AllocError, Global};
use std::marker::Model;

/// The names of a client's contexts.
#[derive(Drop)]
pub struct Contexts {
    /// Those that are current, rising.
    numbers: Vec<u32>,
    made: u32,
}

impl Model for Contexts {
    ghost use Rattle.vg_names.specs.Contexts.{ContextsState};

    ghost Value = { ContextsState };

    ghost view = { λ c. record { current = c.numbers.items; made = c.made } };
}

impl Contexts {
    /// No names.
    pub fn new(alloc: Global) -> Contexts
        ensures { result ≡ record { current = []; made = 0 } }
    {
        Contexts {
            numbers: Vec::new(alloc),
            made: 0,
        }
    }

    /// Whether the name of this number is current.
    pub fn is_current(&self, number: u32) -> bool
        ensures { result ≡ names.is_current number self.now }
    {
        self.numbers.as_slice().contains(&number)
    }

    /// Defines the next name, as that of a context.
    pub fn make(&mut self) -> Result<(), AllocError>
        requires { self.old.made < 2 ^ 31 }
        ensures ok { OnOk result (self.new ≡ with_context self.old) }
        ensures err { OnErr result (self.new ≡ self.old) }
    {
        let number = self.made + 1;
        self.numbers.push(number)?;
        self.made = number;
        Ok(())
    }

    /// Defines the next name, as one that never is current.
    pub fn make_none(&mut self)
        requires { self.old.made < 2 ^ 31 }
        ensures { self.new ≡ with_no_context self.old }
    {
        self.made += 1;
    }

    /// Ends the name of this number, if it is current.
    pub fn end(&mut self, number: u32)
        ensures { self.new ≡ without_context number self.old }
    {
        end_one(&mut self.numbers, number);
    }

    /// The numbers of the current names, in the order in which they were defined.
    pub fn current(&self) -> &[u32]
        ensures { result.now ≡ self.now.current }
    {
        self.numbers.as_slice()
    }

    /// How many names were defined.
    pub fn made(&self) -> u32
        ensures { result ≡ self.now.made }
    {
        self.made
    }
}

/// Takes a number away, if it is there.
fn end_one(numbers: &mut Vec<u32>, number: u32)
    ensures { numbers.new.items ≡ without number numbers.old.items }
{
    if let Some(place) = place_of(numbers.as_slice(), number) {
        let _number = numbers.remove(place);
    }
}

fn place_of(numbers: &[u32], number: u32) -> Option<usize>
    ensures { result ≡ position (names.is_context number) numbers.now }
{
    numbers.iter().position(|one| *one == number)
}
