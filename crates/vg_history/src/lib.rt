//! What a history of calls is, for any machine: entries, the replay of them, and what each client holds at each.
//!
//! A [`Machine`] is a thing that one thread at a time acts on: by acts, each of which gives a reply and changes what its
//! client holds, and by requests, each of which belongs to a lane and has an ordinal there. A history is a list of
//! [`Entry`]s. Nothing here knows of threads. A [`Fence`] is the place of a request on its lane.
#![tactic(auto)]

mod begun;
mod entry;
mod fence;
mod growing;
mod held;
mod laws;
mod listed;
mod machine;
mod spelled;

pub use begun::Begun;
pub use entry::Entry;
pub use fence::Fence;
pub use growing::Growing;
pub use held::History;
pub use laws::{allowed_still, fence_behind, one_of_a_call, replay_goes_on};
pub use machine::{Machine, Tagged, Turn};
pub use spelled::put_line;
