//! What a request comes on, and what can be wrong with it.

/// The two virtqueues of the device (VIRTIO 1.2, 5.7.2).
#[derive(Clone, Copy, Debug, PartialEq, Eq)]
pub enum Queue {
    /// Virtqueue 0.
    Control,
    /// Virtqueue 1.
    Cursor,
}

impl Queue {
    ghost use Rattle.std.specs.Prelude.{◌≡◌};
    ghost use Rattle.vg_wire.specs.Queues as queues;

    /// Whether it is the control queue.
    pub fn is_control(self) -> bool
        ensures { result ≡ queues.is_control self }
    {
        match self {
            Queue::Control => true,
            Queue::Cursor => false,
        }
    }
}

/// Why bytes are no request. The cases are tried in this order.
#[derive(Clone, Copy, Debug, PartialEq, Eq)]
pub enum Malformed {
    /// Fewer than 24 bytes.
    ShortHeader,
    /// The kind is no command's.
    UnknownKind { kind: u32 },
    /// The kind belongs to the other queue.
    WrongQueue,
    /// Fewer bytes than the command's fields take.
    ShortBody,
}
