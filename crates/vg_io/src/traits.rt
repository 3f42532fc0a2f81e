//! What a source and a sink of bytes promise.

ghost use Rattle.std.specs.Prelude.{◌≡◌, ◌<◌, ◌≤◌, ℕ, List, [], Option, length, take, IfOk, OnErr, OnOk};
ghost use Rattle.vg_io.specs.Streams.{Rose, Gives, IsAtEnd, Takes};

/// The answer of a read or a write that failed.
#[derive(Debug, Clone, Copy, PartialEq, Eq)]
pub struct Failed;

/// Where bytes come from.
///
/// Its meanings are the bytes that are left, where it tells them, and a count of its faults, which rises where a
/// read fails and nowhere else. A count that stands at 2^64 - 1 counts as one that rose.
pub trait Source {
    ghost left: { Self → Option (List ℕ) };

    ghost faults: { Self → ℕ };

    /// Puts the next bytes at the front of `buf`, and answers how many. An answer 0 where `buf` isn't
    /// empty is the end of input. A read that failed has given nothing.
    fn read(&mut self, buf: &mut [u8]) -> Result<usize, Failed>
        ensures room { IfOk result (λ n. n ≤ length buf.old) }
        ensures bytes { IfOk result (λ n. Gives (left self.old) (left self.new) (take n buf.new)) }
        ensures end { IfOk result (λ n. n ≡ 0 → 0 < length buf.old → IsAtEnd (left self.new)) }
        ensures none { OnErr result (Gives (left self.old) (left self.new) []) }
        ensures cause { OnErr result (Rose (faults self.old) (faults self.new)) }
        ensures same { OnOk result (faults self.new ≡ faults self.old) }
        ensures count { faults self.old ≤ faults self.new };
}

/// Where bytes go.
///
/// Its meanings are the bytes that it holds, where it tells them, and a count of its faults, which rises where a
/// write fails and nowhere else. A count that stands at 2^64 - 1 counts as one that rose.
pub trait Sink {
    ghost held: { Self → Option (List ℕ) };

    ghost faults: { Self → ℕ };

    /// Takes bytes from the front of `bytes`, at most 65,536, and answers how many: at least one, where
    /// there is one. A write that failed has taken nothing.
    fn write(&mut self, bytes: &[u8]) -> Result<usize, Failed>
        requires { length bytes.now ≤ 65536 }
        ensures room { IfOk result (λ n. n ≤ length bytes.now) }
        ensures bytes { IfOk result (λ n. Takes (held self.old) (held self.new) (take n bytes.now)) }
        ensures some { IfOk result (λ n. 0 < length bytes.now → 0 < n) }
        ensures none { OnErr result (Takes (held self.old) (held self.new) []) }
        ensures cause { OnErr result (Rose (faults self.old) (faults self.new)) }
        ensures same { OnOk result (faults self.new ≡ faults self.old) }
        ensures count { faults self.old ≤ faults self.new };
}
