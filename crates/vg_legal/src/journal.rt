//! The journal of what a run leaves.

ghost use Rattle.std.specs.Prelude.{◌≡◌, count_by};
ghost use Rattle.vg_legal.specs.Legal.{is_on_control, is_on_cursor};

use vg_journal::Journal;
use vg_list::Seq;
use vg_machine::{Frame, History, Setup};

/// The journal of a history: its setup, the history, how many of its commands are on each queue, and its frames.
pub(crate) fn journal_of(setup: Setup, history: History, frames: Vec<Frame>) -> Journal
    ensures parts { (result.setup ≡ setup) × (result.entries ≡ history) × (result.frames ≡ frames.items) }
    ensures control { result.control ≡ count_by is_on_control history }
    ensures cursor { result.cursor ≡ count_by is_on_cursor history }
{
    let (control, cursor) = history.counts();
    Journal {
        setup,
        entries: history,
        control,
        cursor,
        frames: Seq::from_vec(frames),
    }
}
