//! A law of the parts, the contract of a function that does nothing.

ghost use Rattle.std.specs.Prelude.{◌≡◌, ◌++◌, ℕ, List, Some, length};
ghost use Rattle.vg_wire.specs.declared.header.Header.{Header as Headers};
ghost use Rattle.vg_wire.specs.declared.two_d.Command2d.{Command2d as Commands};
ghost use Rattle.vg_wire.specs.Header.{header_bytes, header_of, IsHeader};
ghost use Rattle.vg_wire.specs.Modes.{AllFit, IsModes, Mode, modes_bytes, slots_of, trimmed};
ghost use Rattle.vg_wire.specs.TwoD.{body_of_2d, FitsCount, IsCommand2d, kind_of_2d, two_d_of};

/// What is written of a header, a 2D command and the modes is read as itself.
pub fn what_is_written_is_read()
    ensures header { (header : Headers) (rest : List ℕ) → IsHeader header → header_of (header_bytes header ++ rest) ≡ header }
    ensures command { (command : Commands) → FitsCount command → IsCommand2d command
        → two_d_of (kind_of_2d command) (body_of_2d command) ≡ Some command }
    ensures modes { (front : List ℕ) (modes : List Mode) → length front ≡ 24 → IsModes modes → AllFit modes
        → trimmed (slots_of (front ++ modes_bytes modes)) ≡ modes }
{}
