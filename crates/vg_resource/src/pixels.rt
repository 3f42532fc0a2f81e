//! The pixels of a resource, which may be lent.

ghost use Rattle.std.specs.Prelude.{◌≡◌, false, true, not, is_some, IfSome, length};

use std::marker::Model;
use std::mem;
use std::snapshot::Snapshot;

/// The bytes of a resource's pixels, row by row, four bytes each. While they are lent nobody reads them here, and a clause sees
/// them as they were, and that they are lent.
#[derive(Drop)]
pub struct Pixels {
    bytes: Vec<u8>,
    /// How many bytes there are, also while they are lent.
    size: usize,
    lent: bool,
    /// What was lent last.
    was: Snapshot<Vec<u8>>,
}

impl Model for Pixels {
    ghost use Rattle.std.specs.Prelude.{◌≡◌, length};
    ghost use Rattle.vg_resource.specs.Pixels.{Seen, seen_of};

    ghost Value = { Seen };

    ghost view = { λ p. record { bytes = seen_of p.lent p.bytes.items p.was.value.items; lent = p.lent } };

    ghost invariant = { λ p. p.size ≡ length (seen_of p.lent p.bytes.items p.was.value.items) };
}

impl Pixels {
    /// These bytes.
    pub fn of(bytes: Vec<u8>) -> Pixels
        ensures { result ≡ record { bytes = bytes.items; lent = false } }
    {
        let was = Snapshot::of(&bytes);
        let size = bytes.len();
        Pixels {
            bytes,
            size,
            lent: false,
            was,
        }
    }

    /// How many bytes there are.
    pub fn len(&self) -> usize
        ensures { result ≡ length self.now.bytes }
    {
        self.size
    }

    /// The bytes. None exactly while they are lent.
    pub fn as_slice(&self) -> Option<&[u8]>
        ensures bytes { IfSome result (λ bytes. bytes.now ≡ self.now.bytes) }
        ensures here { is_some result ≡ not self.now.lent }
    {
        let here = !self.lent;
        if here {
            return Some(self.bytes.as_slice());
        }
        None
    }

    /// Lends the bytes, which takes no memory and copies none. None exactly where they are lent.
    pub fn lend(&mut self) -> Option<Vec<u8>>
        ensures lent { self.new ≡ record self.old { lent = true } }
        ensures bytes { IfSome result (λ bytes. bytes.items ≡ self.old.bytes) }
        ensures here { is_some result ≡ not self.old.lent }
    {
        if self.lent {
            return None;
        }
        self.lent = true;
        self.was = Snapshot::of(&self.bytes);
        let none = Vec::new(*self.bytes.allocator());
        Some(mem::replace(&mut self.bytes, none))
    }

    /// Takes as many bytes back, which may be others now and aren't lent any more.
    pub fn restore(&mut self, bytes: Vec<u8>)
        requires { length bytes.items ≡ length self.old.bytes }
        ensures { self.new ≡ record { bytes = bytes.items; lent = false } }
    {
        self.lent = false;
        self.bytes = bytes;
    }
}
