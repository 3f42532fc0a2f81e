//! Laws of words as sets of clients, each the contract of a function that does no work.

ghost use Rattle.std.specs.Prelude.{◌≡◌, ◌↔◌, ℕ, true, List};
ghost use Rattle.vg_client_holds.specs.declared.setup.Setup.{Setup};
ghost use Rattle.vg_machine.specs.Entries.{Entry};
ghost use Rattle.vg_painted.specs.Clients.{clients};
ghost use Rattle.vg_painted.specs.Inks.{tags};
ghost use Rattle.vg_painted.specs.Paint.{painting};
ghost use Rattle.vg_painted.specs.Painted.{AreRelated};
ghost use Rattle.vg_drawn.specs.Sets.{AreNumbered, AreTagsBelow, IsWordOf};
ghost use Rattle.vg_drawn.specs.Words.{has_client, union_below, words};

/// A law, and no work: at each place the word has exactly the clients of the set there.
pub fn words_are_the_sets()
    ensures { (setup : Setup) (H : List Entry) → AreNumbered H → AreRelated IsWordOf IsWordOf (painting words setup H) (painting clients setup H) }
{}

/// A law, and no work: a client is one of those of the first so many bytes of a frame exactly where it stored the byte of one of
/// their tags.
pub fn a_frames_clients_are_of_its_tags()
    ensures { (setup : Setup) (H : List Entry) (n count client : ℕ) → AreNumbered H
        → has_client (union_below ((painting words setup H).frames n) count) client ≡ true ↔ AreTagsBelow H client ((painting tags setup H).frames n) count }
{}
