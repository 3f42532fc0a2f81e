//! Why a line is refused.

use std::alloc::AllocError;

/// What is wrong with a line. A line's fault is the first of these that it has.
#[derive(Clone, Copy)]
pub enum Kind {
    /// A byte that no script has, or too many bytes.
    Text = 1,
    /// An unknown word, or a wrong count or place of words.
    Word,
    /// A badly spelled number or HEX.
    Number,
    /// A number or a count outside of its limits.
    Limit,
    /// A badly spelled name, or one that is defined where it may not be, or isn't where it has to be.
    Name,
}

impl Kind {
    ghost use Rattle.std.specs.Prelude.{◌≡◌};
    ghost use Rattle.vg_script_words.specs.Kinds.{kind_code};

    /// The kind's number, from 1 to 5.
    pub fn code(self) -> u8
        ensures { result ≡ kind_code self }
    {
        self as u8
    }
}

/// Why the reading of a line stopped.
#[derive(Clone, Copy)]
pub enum Stop {
    /// Want of memory.
    Memory,
    /// A fault of the line.
    Fault(Kind),
}

impl From<AllocError> for Stop {
    ghost use Rattle.std.specs.Prelude.{◌≡◌};
    ghost use Rattle.vg_script_words.specs.declared.kind.Stop.TheVariants.{Memory};

    ghost from_gives = { λ _ stop. stop ≡ Memory };

    fn from(_: AllocError) -> Stop {
        Stop::Memory
    }
}

impl From<Kind> for Stop {
    ghost use Rattle.std.specs.Prelude.{◌≡◌};
    ghost use Rattle.vg_script_words.specs.declared.kind.Stop.TheVariants.{Fault};

    ghost from_gives = { λ kind stop. stop ≡ Fault kind };

    fn from(kind: Kind) -> Stop {
        Stop::Fault(kind)
    }
}
