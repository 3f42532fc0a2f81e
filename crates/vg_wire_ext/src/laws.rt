//! Laws of the grammar, each the contract of a function that does nothing.

ghost use Rattle.std.specs.Prelude.{◌≡◌, ◌<◌, ◌≤◌, ◌⊎◌, ◌↔◌, ℕ, List, None, drop, length, true, false};
ghost use Rattle.vg_wire.specs.Header.{header_of};
ghost use Rattle.vg_wire_ext.specs.Commands.{command_of, is_known};
ghost use Rattle.vg_wire_ext.specs.Request.{Reads, Refuses, is_queue_of};
ghost use Rattle.vg_wire.specs.declared.header.Header.{Header as Headers};
ghost use Rattle.vg_wire_ext.specs.declared.command.Command.{Command as Commands};
ghost use Rattle.vg_wire.specs.declared.request.Malformed.{Malformed as Refusals};
ghost use Rattle.vg_wire.specs.declared.request.Malformed.TheVariants as refusals;
ghost use Rattle.vg_wire.specs.declared.request.Queue.{Queue as Queues};

/// Bytes that came on a queue are one request or are refused for one reason, and never both.
pub fn a_request_or_a_refusal()
    ensures either { (queue : Queues) (bytes : List ℕ) → ((header : Headers) × (command : Commands) × Reads queue bytes header command)
        ⊎ ((malformed : Refusals) × Refuses queue bytes malformed) }
    ensures never_both { (queue : Queues) (bytes : List ℕ) (header : Headers) (command : Commands) (malformed : Refusals)
        → Reads queue bytes header command → Refuses queue bytes malformed → ⊥ }
{}

/// When each reason comes.
pub fn each_refusal()
    ensures short { (queue : Queues) (bytes : List ℕ) → Refuses queue bytes refusals.ShortHeader ↔ (length bytes < 24) }
    ensures unknown { (queue : Queues) (bytes : List ℕ) (kind : ℕ) → Refuses queue bytes (refusals.UnknownKind kind)
        ↔ ((24 ≤ length bytes) × (is_known kind ≡ false) × ((header_of bytes).kind ≡ kind)) }
    ensures wrong { (queue : Queues) (bytes : List ℕ) → Refuses queue bytes refusals.WrongQueue
        ↔ ((24 ≤ length bytes) × (is_known (header_of bytes).kind ≡ true) × (is_queue_of (header_of bytes).kind queue ≡ false)) }
    ensures body { (queue : Queues) (bytes : List ℕ) → Refuses queue bytes refusals.ShortBody
        ↔ ((24 ≤ length bytes) × (is_known (header_of bytes).kind ≡ true) × (is_queue_of (header_of bytes).kind queue ≡ true)
        × (command_of (header_of bytes).kind (drop 24 bytes) ≡ None)) }
{}
