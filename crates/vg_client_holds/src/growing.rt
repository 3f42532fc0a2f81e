//! What a client holds only grows until it gives something up.

ghost use Rattle.std.specs.Prelude.{◌≡◌, false};
ghost use Rattle.vg_wire.specs.declared.request.Queue.{Queue};
ghost use Rattle.vg_client_holds.specs.declared.act.Act.{Act};
ghost use Rattle.vg_client_holds.specs.declared.act.ActReply.{ActReply};
ghost use Rattle.vg_client_holds.specs.declared.holds.Holds.{Holds};
ghost use Rattle.vg_client_holds.specs.Holds.{Allowed, gives_up, update};

/// A law, and no work: what a client may ask it may ask still after each act that gives nothing up, whatever the act was
/// answered. The acts that give something up are release, free, drop and leave.
pub fn holds_only_grow()
    ensures { (holds : Holds) (act : Act) (reply : ActReply) (queue : Queue) (bytes : _) → gives_up act ≡ false → Allowed holds queue bytes → Allowed (update holds act reply) queue bytes }
{}
