//! A display whose bytes are the numbers of the clients that stored them: what it has in each place tells whose byte is there. Laws, and
//! no code.
#![tactic(auto)]

mod laws;

pub use laws::{bytes_are_their_clients, stored_bytes_steer_nothing};
