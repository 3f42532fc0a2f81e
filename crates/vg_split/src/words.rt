//! How the parts of a ring stand in its words (VIRTIO 1.2, 2.7.5, 2.7.6 and 2.7.8).

ghost use Rattle.std.specs.Prelude.{◌≡◌, ℕ, ◌+◌, ◌*◌, ◌/◌, ◌%◌, ◌^◌, ◌<◌, ◌++◌, List, slice_index};
ghost use Rattle.vg_chain.specs.declared.form.Form.TheVariants.{Split};
ghost use Rattle.vg_chain.specs.Made.{table_bytes};
ghost use Rattle.vg_numbers.specs.Numbers.{le};
ghost use Rattle.vg_cargo.specs.Descriptors as cells;
ghost use Rattle.vg_split.specs.Words as layout;
ghost use Rattle.vg_split.specs.Words.{IsAvailable, IsUsed, image_of, table_from};
ghost use Rattle.vg_cargo.specs.Descriptors.{descriptor_from};

use vg_chain::Descriptor;

/// The second word of a descriptor; the first one is its address.
pub(crate) fn rest_word(descriptor: Descriptor) -> u64
    ensures word { result ≡ cells.rest_word descriptor }
    ensures back { descriptor_from descriptor.addr result ≡ descriptor }
{
    u64::from(descriptor.len)
        + u64::from(descriptor.flags) * 0x1_0000_0000
        + u64::from(descriptor.next) * 0x1_0000_0000_0000
}

/// The descriptor that these two words have.
pub(crate) fn descriptor_of(addr: u64, rest: u64) -> Descriptor
    ensures { result ≡ descriptor_from addr rest }
{
    Descriptor {
        addr,
        len: (rest % 0x1_0000_0000) as u32,
        flags: (rest / 0x1_0000_0000 % 0x1_0000) as u16,
        next: (rest / 0x1_0000_0000_0000) as u16,
    }
}

/// The word of a used element.
pub(crate) fn used_word(head: u16, len: u32) -> u64
    ensures { result ≡ layout.used_word head len }
{
    u64::from(head) + u64::from(len) * 0x1_0000_0000
}

/// The head and the length that such a word has.
pub(crate) fn used_of(word: u64) -> (u16, u32)
    requires { word % 2 ^ 32 < 2 ^ 16 }
    ensures word { layout.used_word result.0 result.1 ≡ word }
    ensures small { result.0 < 2 ^ 16 }
{
    ((word % 0x1_0000_0000) as u16, (word / 0x1_0000_0000) as u32)
}

/// The bytes of the descriptors of a ring are those of the table that its words have, those of the two
/// rings are their flags, their index and their elements in order, and the eight bytes of a used element
/// are its head and its length, four bytes each.
pub fn words_are_bytes()
    ensures descriptors { (n : ℕ) (words : List ℕ) → ((i : ℕ) → slice_index words i < 2 ^ 64) → (image_of n words).descriptors ≡ table_bytes Split (table_from n words) }
    ensures available { (n : ℕ) (words : List ℕ) → IsAvailable n words (image_of n words).available }
    ensures used { (n : ℕ) (words : List ℕ) → IsUsed n words (image_of n words).used }
    ensures used_element { (head len : ℕ) → head < 2 ^ 16 → len < 2 ^ 32 → le 8 (layout.used_word head len) ≡ le 4 head ++ le 4 len }
{}

/// The word of an available element, by how many cargoes were published before.
pub(crate) fn available_word(size: u16, count: u64) -> usize
    requires { 0 < size }
    ensures place { result ≡ layout.available_place size (count % size) }
    ensures small { result < 2 + 4 * size }
{
    2 + 2 * size as usize + (count % u64::from(size)) as usize
}

/// The word of a used element, by how many cargoes were completed before.
pub(crate) fn used_element_word(size: u16, count: u64) -> usize
    requires { 0 < size }
    ensures place { result ≡ layout.used_place size (count % size) }
    ensures small { result < 2 + 4 * size }
{
    2 + 3 * size as usize + (count % u64::from(size)) as usize
}
