//! Chains of descriptors of a virtqueue, split or packed (VIRTIO 1.2, 2.7.5 and 2.8), the shapes in which a request and the
//! room for its response are laid out, and what is asked of the device: all that the guest makes available for one command and all that
//! the device reads of it.
#![tactic(auto)]

mod asked;
mod chain;
mod descriptor;
mod fault;
mod form;
mod laws;
mod layout;
mod part;
mod shape;
mod space;
mod tour;

pub use asked::Asked;
pub use chain::{Chain, ChainFault, Parts};
pub use descriptor::{Descriptor, Segment};
pub use form::Form;
pub use laws::{a_layout_is_walked, a_walk_has_one_result};
pub use part::Extent;
pub use shape::Shape;
pub use space::{MOST_ROOM, ROOM_OFFSET, SPACE, TABLES_OFFSET};
pub use tour::walk;
