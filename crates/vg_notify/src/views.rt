//! What the two halves of a bell know: plain data that proofs alone read.

/// What the ringer is about to do.
pub enum RingerStage {
    /// Nothing.
    Resting,
    /// It has stored its count, which was `old` before.
    Stored { old: u64 },
    /// It has loaded an event that calls for a kick.
    Raising,
}

/// What the ringer knows.
pub struct RingerView {
    /// How much was published, and how many kicks there were.
    pub count: u64,
    pub rung: u64,
    /// How often the event was loaded, and what it was the last time.
    pub looks: u64,
    pub seen: u64,
    pub stage: RingerStage,
}

/// What the sleeper knows.
pub struct SleeperView {
    pub event: u64,
    /// The kicks that were loaded when the bell was armed.
    pub loaded: u64,
    pub asleep: bool,
    /// How often the kicks were loaded, and how many there were the last time.
    pub hears: u64,
    pub heard: u64,
    /// How often the count was loaded, and what it was the last time.
    pub looks: u64,
    pub seen: u64,
    /// What the ringer's note says that was taken in.
    pub noted_count: u64,
    pub noted_rung: u64,
}

/// What a seat of the bell's table knows.
pub enum View {
    /// The first seat, before there are two halves.
    Start,
    Rings(RingerView),
    Sleeps(SleeperView),
    /// What the ringer had while it rested, for the sleeper.
    Note { count: u64, rung: u64 },
    /// A note that was taken in.
    Spent,
}
