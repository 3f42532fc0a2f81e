//! The words of a journal's lines: acts and their replies, what is denied, refusals, and layouts of descriptors.
//!
//! Each function adds to a [`Packed`](vg_text::Packed) text.
#![tactic(auto)]

mod acts;
mod replies;
mod shapes;

pub use acts::put_act;
pub use replies::put_act_reply;
pub use shapes::{put_fault, put_shape};
