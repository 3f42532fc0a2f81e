//! What the program says on standard error, and its exit status.

ghost use Rattle.std.specs.Prelude.{◌≡◌};
ghost use Rattle.vg_run.specs.Codes.{exit_code, fault_told, kind_told};

use crate::top::Status;
use thiserror::Error;

/// Why a call didn't end well.
#[derive(Clone, Copy, Debug, PartialEq, Eq, Error)]
pub enum Fault {
    #[error("usage: vgpu run | run --workers N | check | gen --number N --clients C | origins | upgrade")]
    Usage,
    #[error("script line {line}: {kind}")]
    Script { line: u32, kind: Kind },
    #[error("journal line {line}")]
    Journal { line: u32 },
    #[error("read fault")]
    ReadFault,
    #[error("write fault")]
    WriteFault,
    #[error("too long")]
    TooLong,
    #[error("out of memory")]
    NoMemory,
}

/// What is wrong with a line of a script.
#[derive(Clone, Copy, Debug, PartialEq, Eq, Error)]
pub enum Kind {
    #[error("text")]
    Text,
    #[error("word")]
    Word,
    #[error("number")]
    Number,
    #[error("limit")]
    Limit,
    #[error("name")]
    Name,
    #[error("wait cycle")]
    WaitCycle,
}

/// The kind of a fault's number, which goes from 1 to 6.
fn kind_of(number: u8) -> Kind
    ensures { result ≡ kind_told number }
{
    match number {
        1 => Kind::Text,
        2 => Kind::Word,
        3 => Kind::Number,
        4 => Kind::Limit,
        5 => Kind::Name,
        _ => Kind::WaitCycle,
    }
}

/// What is said of a status on standard error: nothing where all is done, or a journal is wrong, which is said on standard output.
pub fn fault_of(status: Status) -> Option<Fault>
    ensures { result ≡ fault_told status }
{
    match status {
        Status::Done => None,
        Status::Wrong { .. } => None,
        Status::Usage => Some(Fault::Usage),
        Status::Script { line, kind } => Some(Fault::Script {
            line,
            kind: kind_of(kind),
        }),
        Status::Journal { line } => Some(Fault::Journal { line }),
        Status::ReadFault => Some(Fault::ReadFault),
        Status::WriteFault => Some(Fault::WriteFault),
        Status::TooLong => Some(Fault::TooLong),
        Status::NoMemory => Some(Fault::NoMemory),
    }
}

/// The exit status of the program.
pub fn code_of(status: Status) -> u8
    ensures { result ≡ exit_code status }
{
    match status {
        Status::Done => 0,
        Status::Wrong { .. } => 1,
        Status::Usage => 2,
        Status::Script { .. } => 3,
        Status::Journal { .. } => 3,
        Status::ReadFault => 4,
        Status::WriteFault => 5,
        Status::TooLong => 6,
        Status::NoMemory => 7,
    }
}
