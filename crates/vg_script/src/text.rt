//! The script of a text, or its first fault.

ghost use Rattle.std.specs.Prelude.{◌≡◌, ◌<◌, ◌-◌, ◌^◌, length, IfOk, IfErr, [], ℕ};
ghost use Rattle.vg_script.specs.Labels.{start_of};
ghost use Rattle.vg_script.specs.Lines.{lines_of};
ghost use Rattle.vg_script.specs.Grammar.{Parses, Faulty, read_script, scan};
ghost use Rattle.vg_script.specs.Limits.{ScriptInLimits};
ghost use Rattle.vg_script.specs.ReadingWithin.{seen, answered};

use crate::labels::labels;
use crate::reader::Reader;
use crate::types::{Script, ScriptFault};
use std::alloc::{AllocError, Global};
use vg_script_words::{Stop, cut};

/// The kind of the fault of a line that waits for itself. Those of a line by itself are `Kind`'s.
const WAIT_CYCLE: u8 = 6;

/// The script that these bytes are, or the first fault of bytes that are none. It fails only for want of memory.
///
/// Lines end with the byte 10, which the last may lack. They are counted from 1, skipped lines too.
#[tactic(auto, unfolding(crate::specs::Grammar::read_script))]
pub fn parse(alloc: Global, bytes: &[u8]) -> Result<Result<Script, ScriptFault>, AllocError>
    requires { length bytes.now < 2 ^ 32 - 1 }
    ensures script { IfOk result (λ r. IfOk r (λ script. Parses bytes.now script)) }
    ensures limits { IfOk result (λ r. IfOk r (λ script. ScriptInLimits script)) }
    ensures fault { IfOk result (λ r. IfErr r (λ fault. Faulty bytes.now fault.line fault.kind)) }
    ensures every_script { IfOk result (λ r. (script : Script) → Parses bytes.now script → r ≡ Ok script) }
    ensures every_fault { IfOk result (λ r. (line kind : ℕ) → Faulty bytes.now line kind
        → r ≡ Err (record { line = line; kind = kind })) }
{
    match read_lines(alloc, bytes)? {
        Ok(reader) => {
            let cycle = reader.cycle(alloc)?;
            Ok(unless(cycle, reader.finish()))
        }
        Err(fault) => Ok(Err(fault)),
    }
}

/// What was read, unless a line of this number waits for itself.
fn unless(cycle: Option<u32>, read: Result<Script, ScriptFault>) -> Result<Script, ScriptFault>
    ensures { result ≡ answered cycle read }
{
    let script = read?;
    match cycle {
        Some(line) => Err(ScriptFault {
            line,
            kind: WAIT_CYCLE,
        }),
        None => Ok(script),
    }
}

fn read_lines<'a>(
    alloc: Global,
    bytes: &'a [u8],
) -> Result<Result<Reader<'a>, ScriptFault>, AllocError>
    requires { length bytes.now < 2 ^ 32 - 1 }
    ensures lines { IfOk result (λ r. IfOk r (λ reader. (seen reader).lines < 2 ^ 32 - 1)) }
    ensures reader { IfOk result (λ r. IfOk r (λ reader.
        scan (start_of (lines_of bytes.now)) (lines_of bytes.now) ≡ scan (seen reader) [])) }
    ensures fault { IfOk result (λ r. IfErr r (λ fault. scan (start_of (lines_of bytes.now)) (lines_of bytes.now) ≡ Err fault)) }
{
    let mut reader = Reader::new(alloc, labels(alloc, bytes)?);
    let mut words = Vec::new(alloc);
    let mut rest = bytes;
    while !rest.is_empty() {
        let (line, after) = cut(rest, b'\n');
        rest = after;
        let number = reader.lines() + 1;
        match reader.read_line(alloc, &mut words, line) {
            Ok(()) => {}
            Err(Stop::Memory) => return Err(AllocError),
            Err(Stop::Fault(kind)) => {
                return Ok(Err(ScriptFault {
                    line: number,
                    kind: kind.code(),
                }));
            }
        }
    }
    Ok(Ok(reader))
}
