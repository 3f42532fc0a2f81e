//! The program's one call: a script is read, its clients run, and the journal is written; or a journal is read, and it is said
//! whether it is that of a legal history, or whose bytes its frames have, or it is written with the queues of version 2; or a workload
//! is made and run, and it is said what came of it.
#![tactic(auto)]

mod check_command;
mod fault;
mod gen_command;
mod journals;
mod origins_command;
mod run_command;
mod top;
mod upgrade_command;
mod words;

pub use fault::{Fault, Kind, code_of, fault_of};
pub use top::{Status, vgpu};
pub use vg_legal::{
    Device, Driven, at_most_one_history, clients_make_one_history, drive, drive_in,
    nothing_without_clients,
};
pub use vg_script_part::{Performed, perform};
pub use words::{Command, command_of};
