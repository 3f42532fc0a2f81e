//! Laws of displays that store clients' numbers, each the contract of a function that does no work.

ghost use Rattle.std.specs.Prelude.{◌≡◌, List, map};
ghost use Rattle.vg_client_holds.specs.declared.setup.Setup.{Setup};
ghost use Rattle.vg_machine.specs.Entries.{Entry};
ghost use Rattle.vg_machine.specs.Replay.{replay};
ghost use Rattle.vg_painted.specs.Clients.{clients};
ghost use Rattle.vg_painted.specs.Paint.{painting};
ghost use Rattle.vg_drawers.specs.Drawers.{AreOfClients, by_client};
ghost use Rattle.vg_drawers.specs.Shape.{shape};

use vg_painted::numbers_are_the_bytes;

/// A law, and no work: which bytes clients store steers nothing. Where each byte that is stored is another one, the display is as it
/// was but for its bytes: so are what is refused, which pages, resources, bindings, cursors and frames there are, and how large they are.
pub fn stored_bytes_steer_nothing()
    ensures { (setup : Setup) (H : List Entry) → shape (replay setup (map by_client H)) ≡ shape (replay setup H) }
{}

/// A law, and no work: where each byte that is stored is the number of its client, each byte of memory, of pixels, of screens and of
/// images is the number of the client that stored the byte which is there in truth, and none from 1 to 16 where no client did.
pub fn bytes_are_their_clients()
    ensures { (setup : Setup) (H : List Entry) → AreOfClients (replay setup (map by_client H)) (painting clients setup H) }
{
    numbers_are_the_bytes();
}
