//! From whose bytes each frame of a history comes: the display goes through it again, with clients' numbers in the place of the bytes
//! that they store, and each frame has the clients of its screen and of the cursor over it, as a word of 64 bits.
#![tactic(auto)]

mod bytes;
mod clients;
mod drawn;
mod frame;
mod laws;
mod made;

pub use clients::clients_of;
pub use drawn::Drawn;
pub use laws::{a_frames_clients_are_of_its_tags, words_are_the_sets};
