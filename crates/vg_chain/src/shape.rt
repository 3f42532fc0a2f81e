//! How a request and the room for its response are laid out in descriptors.

ghost use Rattle.std.specs.Prelude.{◌≡◌, ℕ};
ghost use Rattle.vg_chain.specs.declared.shape.Shape.TheVariants.{Bad};
ghost use Rattle.vg_chain.specs.Made.{IsCount, IsNeeded};

use crate::chain::ChainFault;
use crate::part::count_parts;
use crate::space::HEADER_SIZE;

/// The shape of a descriptor chain.
#[derive(Clone, Copy, Debug, PartialEq, Eq)]
pub enum Shape {
    /// One readable descriptor for the request, then one writable descriptor for the room. A part of
    /// length 0 has none; where both have, there is one readable descriptor of length 0.
    Plain,
    /// As Plain, with the request in `n` pieces, from 2 to 8. All but the last have the same length,
    /// and none is empty, so there may be fewer.
    Pieces { n: u8 },
    /// One descriptor that refers to a table of Plain's (VIRTIO 1.2, 2.7.5.3).
    Indirect,
    /// A readable descriptor for the header, then one that refers to a table of the rest. It is
    /// Plain where the request or that table would be empty.
    Mixed,
    /// A chain with this fault.
    Bad { fault: ChainFault },
}

impl Shape {
    /// How many descriptors of the ring the shape uses for a request and a room of these lengths.
    pub fn needed(&self, request: u32, room: u32) -> u16
        requires { IsCount self.now }
        ensures { IsNeeded self.now request room result }
    {
        match *self {
            Shape::Plain => count_parts(1, request, room),
            Shape::Pieces { n } => count_parts(n, request, room),
            Shape::Indirect => 1,
            Shape::Mixed => {
                if request == 0 || (request <= HEADER_SIZE && room == 0) {
                    count_parts(1, request, room)
                } else {
                    2
                }
            }
            Shape::Bad { fault } => needed_of_bad(fault),
        }
    }
}

/// The same of a chain with this fault.
fn needed_of_bad(fault: ChainFault) -> u16
    ensures { (n r : ℕ) → IsNeeded (Bad fault) n r result }
{
    match fault {
        ChainFault::NextWithIndirect | ChainFault::Order => 2,
        _ => 1,
    }
}
