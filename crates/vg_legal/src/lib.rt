//! A script's run, from its book and rings to its journal, and the laws of legal histories.
#![tactic(auto)]

mod driving;
mod journal;
mod laws;

pub use driving::{Device, Driven, drive, drive_in};
pub use laws::{
    at_most_one_history, clients_make_one_history, nothing_without_clients, waits_stand_behind,
};
