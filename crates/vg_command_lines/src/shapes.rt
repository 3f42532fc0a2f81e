//! The layouts of a chain.

ghost use Rattle.std.specs.Prelude.{◌≡◌};
ghost use Rattle.vg_command_lines.specs.Shapes.{count_of, fault_of, shape_of};

use vg_chain::{ChainFault, Shape};
use vg_script_words::is;

/// The shape that has this word, if one has.
#[tactic(auto, unfolding(crate::specs::Shapes::shape_of, crate::specs::Shapes::fault_of))]
pub(crate) fn shape_of(word: &[u8]) -> Option<Shape>
    ensures { result ≡ shape_of word.now }
{
    if is(word, b"plain") {
        return Some(Shape::Plain);
    }
    if is(word, b"indirect") {
        return Some(Shape::Indirect);
    }
    if is(word, b"mixed") {
        return Some(Shape::Mixed);
    }
    if let Some(fault) = fault_of(word) {
        return Some(Shape::Bad { fault });
    }
    let n = count_of(word)?;
    Some(Shape::Pieces { n })
}

/// How many pieces have this word, if it is such a word.
fn count_of(word: &[u8]) -> Option<u8>
    ensures { result ≡ count_of word.now }
{
    if is(word, b"pieces2") {
        Some(2)
    } else if is(word, b"pieces3") {
        Some(3)
    } else if is(word, b"pieces4") {
        Some(4)
    } else if is(word, b"pieces5") {
        Some(5)
    } else if is(word, b"pieces6") {
        Some(6)
    } else if is(word, b"pieces7") {
        Some(7)
    } else if is(word, b"pieces8") {
        Some(8)
    } else {
        None
    }
}

/// The fault that has this word, if one has.
#[tactic(auto, unfolding(crate::specs::Shapes::fault_of))]
pub(crate) fn fault_of(word: &[u8]) -> Option<ChainFault>
    ensures { result ≡ fault_of word.now }
{
    if is(word, b"index") {
        Some(ChainFault::Index)
    } else if is(word, b"loop") {
        Some(ChainFault::Loop)
    } else if is(word, b"nested") {
        Some(ChainFault::Nested)
    } else if is(word, b"nextindirect") {
        Some(ChainFault::NextWithIndirect)
    } else if is(word, b"tablelength") {
        Some(ChainFault::TableLength)
    } else if is(word, b"order") {
        Some(ChainFault::Order)
    } else if is(word, b"range") {
        Some(ChainFault::Range)
    } else {
        None
    }
}
