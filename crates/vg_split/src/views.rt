//! What the two ends of a ring and the holders of its rights know: plain data that proofs alone read.

use std::collections::LinkedList;
use vg_cargo::{Answer, Entry};
use vg_wire::Queue;

/// The two words of a descriptor, as they were stored at its place.
pub struct Stored {
    pub place: u16,
    pub addr: u64,
    pub rest: u64,
}

/// What the driver's end is about to do.
pub enum DriverStage {
    /// Nothing.
    Resting,
    /// These descriptors of a publication are stored.
    Writing {
        stored: LinkedList<Stored>,
    },
    /// And the address of one more.
    Half {
        stored: LinkedList<Stored>,
        place: u16,
        addr: u64,
    },
    /// The element is stored too, and the cargo's slot is taken.
    Offered {
        stored: LinkedList<Stored>,
    },
    /// The used index that was loaded isn't the count.
    Newer,
    /// The slot of an answer is taken.
    Taken {
        answer: Answer,
    },
    /// A note was taken in: the device's end has fetched these.
    Noted {
        fetched: LinkedList<Entry>,
    },
}

/// What the driver's end knows.
pub struct DriverView {
    pub published: LinkedList<Entry>,
    pub reaped: LinkedList<Answer>,
    /// Those published that aren't reaped, in any order.
    pub outs: LinkedList<Entry>,
    /// How often the used index was loaded by `reap`, and what it was the last time.
    pub looks: u64,
    pub seen: u64,
    pub stage: DriverStage,
}

/// What the device's end is about to do.
pub enum DeviceStage {
    /// Nothing.
    Resting,
    /// The available index that was loaded isn't the count.
    Newer,
    /// The slot of the entry that was fetched last is taken.
    Taken {
        entry: Entry,
    },
    /// The used element of this entry is stored, and its slot is taken.
    Answering {
        entry: Entry,
        len: u32,
    },
    /// The right to this entry was taken in, and these were lent before.
    Returned {
        entry: Entry,
        lent: LinkedList<Entry>,
    },
    /// A right to this entry is about to be split off.
    Naming {
        entry: Entry,
    },
    /// A note was taken in: the driver's end has these back.
    Noted {
        reaped: LinkedList<Answer>,
    },
}

/// What the device's end knows.
pub struct DeviceView {
    /// The queue whose end it is.
    pub queue: Queue,
    pub fetched: LinkedList<Entry>,
    pub completed: LinkedList<Answer>,
    /// Those fetched that aren't completed, in any order.
    pub held: LinkedList<Entry>,
    /// Those to which rights are outside.
    pub lent: LinkedList<Entry>,
    /// How often the available index was loaded by `fetch`, and what it was the last time.
    pub looks: u64,
    pub seen: u64,
    pub stage: DeviceStage,
}

/// What a seat of the ring's table knows.
pub enum View {
    /// The first seat, before there are two ends of this queue.
    Start(Queue),
    Driver(DriverView),
    Device(DeviceView),
    /// A right to this entry.
    Right(Entry),
    /// What an end has, for the other one: these were published, and these were completed.
    Note {
        fetched: LinkedList<Entry>,
        reaped: LinkedList<Answer>,
    },
    /// A right or a note that was taken in.
    Spent,
}
