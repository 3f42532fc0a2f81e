//! What stands in a line for a layout of descriptors, or for its fault.

ghost use Rattle.std.specs.Prelude.{◌≡◌, ◌++◌, codes, decimal, OnErr, OnOk};
ghost use Rattle.vg_list.specs.Front.{HasFront};
ghost use Rattle.vg_journal_words.specs.Text.{fault_text, shape_text};

use std::alloc::AllocError;
use vg_chain::{ChainFault, Shape};
use vg_text::Packed;

/// Adds the name of a layout. For want of memory, here and below, a front of it is added.
#[tactic(auto, using(vg_list::proofs::FrontLemmas::fronts))]
pub fn put_shape(out: &mut Packed, shape: &Shape) -> Result<(), AllocError>
    ensures ok { OnOk result (out.new ≡ out.old ++ shape_text shape.now) }
    ensures err { OnErr result (HasFront out.old out.new (shape_text shape.now)) }
{
    match shape {
        Shape::Plain => out.put(b"plain"),
        Shape::Pieces { n } => out.put_numbered(b"pieces", u32::from(*n)),
        Shape::Indirect => out.put(b"indirect"),
        Shape::Mixed => out.put(b"mixed"),
        Shape::Bad { fault } => put_fault(out, *fault),
    }
}

/// Adds a chain's fault, by the layout that has it.
#[tactic(auto, using(vg_list::proofs::FrontLemmas::fronts))]
pub fn put_fault(out: &mut Packed, fault: ChainFault) -> Result<(), AllocError>
    ensures ok { OnOk result (out.new ≡ out.old ++ fault_text fault) }
    ensures err { OnErr result (HasFront out.old out.new (fault_text fault)) }
{
    match fault {
        ChainFault::Index => out.put(b"index"),
        ChainFault::Loop => out.put(b"loop"),
        ChainFault::Nested => out.put(b"nested"),
        ChainFault::NextWithIndirect => out.put(b"nextindirect"),
        ChainFault::TableLength => out.put(b"tablelength"),
        ChainFault::Order => out.put(b"order"),
        ChainFault::Range => out.put(b"range"),
    }
}
