//! Laws of the bytes of a display written in inks, each the contract of a function that does no work.

ghost use Rattle.std.specs.Prelude.{◌≡◌, ◌↔◌, ℕ, true, List};
ghost use Rattle.vg_client_holds.specs.declared.setup.Setup.{Setup};
ghost use Rattle.vg_machine.specs.Entries.{Entry};
ghost use Rattle.vg_machine.specs.Replay.{replay};
ghost use Rattle.vg_painted.specs.Clients.{AreTagsOf, IsTagOf, clients};
ghost use Rattle.vg_painted.specs.Inks.{numbers, tagged, tags};
ghost use Rattle.vg_painted.specs.Paint.{painting};
ghost use Rattle.vg_painted.specs.Painted.{AreRelated, IsPainted};

/// A law, and no work: of each byte with its tag the byte is the one of the painting in numbers, and the tag the one of the painting
/// in tags.
pub fn inks_agree()
    ensures numbers { (setup : Setup) (H : List Entry) → AreRelated (λ x byte. x.0 ≡ byte) (λ x byte. x.0 ≡ byte) (painting tagged setup H) (painting numbers setup H) }
    ensures tags { (setup : Setup) (H : List Entry) → AreRelated (λ x tag. x.1 ≡ tag) (λ x some. x.1 ≡ some) (painting tagged setup H) (painting tags setup H) }
{}

/// A law, and no work: after each history each byte of memory, of each resource's pixels, of each screen, of each cursor's image and of
/// each frame is the one at its place of the painting in numbers.
pub fn numbers_are_the_bytes()
    ensures { (setup : Setup) (H : List Entry) → IsPainted (replay setup H) (painting numbers setup H) }
{}

/// A law, and no work: at each place the set of clients has exactly the clients of the entries that stored the bytes of the tags there.
pub fn sets_are_of_the_tags()
    ensures { (setup : Setup) (H : List Entry)
        → AreRelated (λ set tag. (client : ℕ) → set client ≡ true ↔ IsTagOf H client tag) (λ set some. (client : ℕ) → set client ≡ true ↔ AreTagsOf H client some)
        (painting clients setup H) (painting tags setup H) }
{}
