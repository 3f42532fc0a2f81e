//! Laws of walks and shapes, each the contract of a function that does nothing.

ghost use Rattle.std.specs.Prelude.{◌≡◌, ◌∷◌, ℕ, List, Result};
ghost use Rattle.vg_chain.specs.declared.chain.Chain.{Chain as Chains};
ghost use Rattle.vg_chain.specs.declared.chain.ChainFault.{ChainFault as Faults};
ghost use Rattle.vg_chain.specs.declared.descriptor.Descriptor.{Descriptor as Descriptors};
ghost use Rattle.vg_chain.specs.declared.form.Form.{Form as Forms};
ghost use Rattle.vg_chain.specs.declared.shape.Shape.{Shape as Shapes};
ghost use Rattle.vg_chain.specs.Memory.{Memory};
ghost use Rattle.vg_chain.specs.Walk.{Walks};
ghost use Rattle.vg_chain.specs.Made.{IsRequest, IsLaid, GivesIts, memory_of};

/// The walk of a table from a head has one result.
pub fn a_walk_has_one_result()
    ensures { (m : Memory) (table : List Descriptors) (head : ℕ) (one other : Result Chains Faults) → Walks m table head one → Walks m table head other → one ≡ other }
{}

/// Where a shape's layout stands in the ring's table, whatever stands elsewhere in it, the walk from the
/// head comes to the shape's fault, or to its segments, one by one, which are all bytes of the request
/// and of the room, in order. The form is any in which the shape can be spelled.
pub fn a_layout_is_walked()
    ensures { (form : Forms) (shape : Shapes) (n r b q : ℕ) (table : List Descriptors) (head : ℕ) (others : List ℕ) → IsRequest form shape n r b q → IsLaid shape n r b q table head others
        → GivesIts shape (memory_of form shape n r b q (head ∷ others)) table head n r b }
{}
