//! A client of a display: it enters, makes calls on its buffers, scanouts and contexts, and ends. Each call gives acts on what clients
//! share, and commands that go to the device by a driver.
#![tactic(auto)]

mod begun;
mod caller;
mod client;
mod given;
mod laws;
mod learn;
mod outcome;
mod play;
mod tickets;
mod tokens;

pub use client::Client;
pub use laws::{a_call_numbers_its_context, a_call_numbers_its_name};
pub use outcome::{Last, Numbers, Outcome};
pub use vg_calls::{Call, ContextRef, NameRef};
pub use vg_tasks::{Change, Deed, Task};
