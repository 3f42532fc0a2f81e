//! Before the first line.

ghost use Rattle.std.specs.Prelude.{◌≡◌};
ghost use Rattle.vg_journal_lines.specs.States.{start};

use std::alloc::Global;
use vg_journal_lines::{LeftOut, Stage, State, Version};
use vg_list::Seq;

/// What is known before the first line.
pub(crate) fn start(alloc: Global) -> State
    ensures { result ≡ start }
{
    State {
        stage: Stage::Title,
        version: Version::One,
        displays: Seq::from_vec(Vec::new(alloc)),
        pages: 0,
        left_out: LeftOut {
            edid: false,
            uuid: false,
            blob: false,
            context: false,
        },
        clients: 0,
        host: false,
        entries: 0,
        control: 0,
        cursor: 0,
        frames: 0,
        bytes: 0,
    }
}
