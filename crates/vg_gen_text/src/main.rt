//! Prints the text of a workload, whose number and clients are its words, to lay it beside what tools/gen makes of the same rules.
#![tactic(auto)]

ghost use Rattle.std.specs.Prelude.{◌≤◌, IfOk, IfSome};

use std::env::args;
use std::io;
use std::process::ExitCode;
use vg_gen::generate;

fn main(rt: HostRuntime) -> io::Result<ExitCode> {
    match asked(&rt)? {
        Some((number, clients)) => {
            let text = generate(rt.alloc(), number, clients)?;
            print!(rt; "{text}")?;
            Ok(ExitCode::SUCCESS)
        }
        None => {
            eprintln!(rt; "usage: vg_gen_text NUMBER CLIENTS")?;
            Ok(ExitCode::from(2))
        }
    }
}

/// The number and the clients that the words say. None where they say no workload's.
fn asked(rt: &HostRuntime) -> io::Result<Option<(u64, u32)>>
    ensures { IfOk result (λ asked. IfSome asked (λ both. (1 ≤ both.1) × (both.1 ≤ 16))) }
{
    let words: Vec<String> = args(rt)?.skip(1).collect(rt.alloc())?;
    let [number, clients] = words.as_slice() else {
        return Ok(None);
    };
    match (number.parse(), clients.parse::<u32>()) {
        (Ok(number), Ok(clients)) if 1 <= clients && clients <= 16 => Ok(Some((number, clients))),
        _ => Ok(None),
    }
}
