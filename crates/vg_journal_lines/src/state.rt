//! How far a reader of a journal is.

use crate::counts::FrameHead;
use crate::head::Version;
use vg_list::Seq;

/// What comes next.
#[derive(Clone, Copy)]
pub enum Stage {
    Title,
    /// A display, or the pages.
    Displays,
    /// The queues' sizes.
    Queues,
    /// A feature that is left out, or the clients.
    Features,
    /// The host, or what comes where there is none.
    Host,
    /// An entry, or the counts of commands.
    Entries,
    /// The count of frames.
    Frames,
    /// So many frames, and then the last line.
    Frame { left: u64 },
    /// The pixels of a frame, and then so many frames.
    Pixels { head: FrameHead, left: u64 },
    /// Nothing.
    Done,
}

/// Which features are left out.
#[derive(Clone, Copy)]
pub struct LeftOut {
    pub edid: bool,
    pub uuid: bool,
    pub blob: bool,
    pub context: bool,
}

/// What the lines so far said. What they have said nothing of is 0, none or false.
#[derive(Drop)]
pub struct State {
    pub stage: Stage,
    /// Until the title says it, the first.
    pub version: Version,
    pub displays: Seq<(u32, u32)>,
    pub pages: u32,
    pub left_out: LeftOut,
    pub clients: u32,
    /// Whether there is a host behind the last client.
    pub host: bool,
    /// How many entries there were.
    pub entries: u64,
    pub control: u64,
    pub cursor: u64,
    /// How many frames there were.
    pub frames: u64,
    /// How many bytes the pixels of all frames have.
    pub bytes: u64,
}
