//! The program `vgpu`: runs a script from standard input, and writes its journal to standard output, or says of a journal whether it is
//! that of a legal history, or runs a workload and sums it up.
#![tactic(auto)]

use std::io;
use std::process::ExitCode;
use vg_io::{StdSink, StdSource};
use vg_run::{Status, code_of, fault_of, vgpu};
use vg_worker::FreeGate;

fn main(rt: HostRuntime) -> ExitCode {
    let status = match words(&rt) {
        Ok(words) => {
            let mut source = StdSource::new(rt.stdin());
            let mut sink = StdSink::new(rt.stdout());
            vgpu(
                &rt,
                rt.alloc(),
                words.as_slice(),
                &mut source,
                &mut sink,
                &FreeGate,
            )
        }
        Err(status) => status,
    };
    if let Some(fault) = fault_of(status) {
        // Where standard error can't be written, the exit status alone tells.
        let _ = eprintln!(rt; "{fault}");
    }
    ExitCode::from(code_of(status))
}

/// The words after the program's name. Words that are no text aren't known.
fn words(rt: &HostRuntime) -> Result<Vec<String>, Status> {
    let args = match std::env::args(rt) {
        Ok(args) => args,
        Err(e) if e.kind() == io::ErrorKind::OutOfMemory => return Err(Status::NoMemory),
        Err(_) => return Err(Status::Usage),
    };
    match args.skip(1).collect(rt.alloc()) {
        Ok(words) => Ok(words),
        Err(_) => Err(Status::NoMemory),
    }
}
