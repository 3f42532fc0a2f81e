//! A line of the last client.

ghost use Rattle.std.specs.Prelude.{◌≡◌, OnOk, OnErr};
ghost use Rattle.vg_script.specs.Seen.{add_line};
ghost use Rattle.vg_script.specs.ReadingWithin.{past_limit};

use crate::types::Line;
use std::alloc::AllocError;
use vg_calls::Call;
use vg_list::Seq;
use vg_script_words::{Kind, Stop};

/// Adds a line to the last client, if there is one.
pub(crate) fn add_line(clients: &mut Vec<Seq<Line>>, line: Line) -> Result<(), AllocError>
    ensures ok { OnOk result (clients.new.items ≡ add_line clients.old.items line) }
    ensures err { OnErr result (clients.new.items ≡ clients.old.items) }
{
    if let Some(lines) = clients.last_mut() {
        lines.push(line)?;
    }
    Ok(())
}

/// Why a line stops that is one too many: a fault of its name gives way to that of the limit.
pub(crate) fn past_limit(read: Result<Call, Stop>) -> Stop
    ensures { result ≡ past_limit read }
{
    match read {
        Ok(_) => Stop::Fault(Kind::Limit),
        Err(stop) => match stop {
            Stop::Fault(Kind::Name) => Stop::Fault(Kind::Limit),
            stop => stop,
        },
    }
}
