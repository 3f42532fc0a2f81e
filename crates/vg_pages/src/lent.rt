//! Bytes of guest memory that were lent.

ghost use Rattle.std.specs.Prelude.{◌≡◌, ◌+◌, ◌-◌, ◌<◌, ◌≤◌, ◌++◌, length, take, drop, All};
ghost use Rattle.vg_pages.specs.Lending.{joined};

use crate::piece::Piece;
use std::marker::Model;

/// Bytes of guest memory one after another, as they were when they were lent, and the pages that have them. They are read from the
/// first on, each once.
#[derive(Drop)]
pub struct LentBytes {
    pieces: Vec<Piece>,
    /// How many pieces were read to their end.
    next: usize,
    pages: Vec<u32>,
}

impl Model for LentBytes {
    ghost use Rattle.std.specs.Prelude.{◌≤◌, length, drop};
    ghost use Rattle.vg_pages.specs.Lending.{AreSome, Lending, joined};

    ghost Value = { Lending };

    ghost view = { λ l. record { bytes = joined (drop l.next l.pieces.items); pages = l.pages.items } };

    ghost invariant = { λ l. (l.next ≤ length l.pieces.items) × AreSome l.next l.pieces.items };
}

impl LentBytes {
    /// The bytes of these pieces, none of which is empty, of these pages.
    pub fn of(pieces: Vec<Piece>, pages: Vec<u32>) -> LentBytes
        requires { All (λ piece. 0 < length piece) pieces.items }
        ensures bytes { result.bytes ≡ joined pieces.items }
        ensures pages { result.pages ≡ pages.items }
    {
        LentBytes {
            pieces,
            next: 0,
            pages,
        }
    }

    /// The pages that the bytes were in, also of those that were read. One may stand several times.
    pub fn pages(&self) -> &[u32]
        ensures { result.now ≡ self.now.pages }
    {
        self.pages.as_slice()
    }

    /// The pages that the bytes were in, for good.
    pub fn into_pages(self) -> Vec<u32>
        ensures { result.items ≡ self.pages }
    {
        let LentBytes { pages, .. } = self;
        pages
    }

    /// Copies the next bytes into `out`, as many as it has.
    pub fn read(&mut self, out: &mut [u8])
        requires { length out.old ≤ length self.old.bytes }
        ensures out { out.new ≡ take (length out.old) self.old.bytes }
        ensures rest { self.new ≡ record self.old { bytes = drop (length out.old) self.old.bytes } }
    {
        let mut done = 0;
        while done < out.len() {
            let n = self.peek(&mut out[done..]);
            self.skip(n);
            done += n;
        }
    }

    /// Leaves the next bytes out, so many.
    pub fn skip(&mut self, count: usize)
        requires { count ≤ length self.old.bytes }
        ensures { self.new ≡ record self.old { bytes = drop count self.old.bytes } }
    {
        let mut done = 0;
        while done < count {
            done += self.pass(count - done);
        }
    }

    /// Copies the next bytes into `out`, some, and at most as many as it has.
    fn peek(&self, out: &mut [u8]) -> usize
        requires inside { length out.old ≤ length self.now.bytes }
        requires some { 0 < length out.old }
        ensures some { 0 < result }
        ensures most { result ≤ length out.old }
        ensures out { out.new ≡ take result self.now.bytes ++ drop result out.old }
    {
        let piece = &self.pieces[self.next];
        let n = piece.len().min(out.len());
        piece.read(&mut out[..n]);
        n
    }

    /// Leaves the next bytes out, some, and at most so many.
    fn pass(&mut self, most: usize) -> usize
        requires inside { most ≤ length self.old.bytes }
        requires some { 0 < most }
        ensures some { 0 < result }
        ensures most { result ≤ most }
        ensures rest { self.new ≡ record self.old { bytes = drop result self.old.bytes } }
    {
        let len = self.pieces[self.next].len();
        if most < len {
            self.pieces[self.next].skip(most);
            return most;
        }
        self.next += 1;
        len
    }
}
