//! Sets of bytes, each of which is a client's number or no one's.

ghost use Rattle.std.specs.Prelude.{◌≡◌, length, slice_index};
ghost use Rattle.vg_drawn.specs.Frames.{GoesOn};
ghost use Rattle.vg_drawn.specs.Words.{word_of};

/// The set of the client whose number a byte is, from 1 to 33. Another byte is no one's.
pub(crate) fn word_of(byte: u8) -> u64
    ensures { result ≡ word_of byte }
{
    if 1 <= byte && byte <= 33 {
        1 << (byte - 1)
    } else {
        0
    }
}

/// Those so far, and those of these bytes.
pub(crate) fn union(all: u64, bytes: &[u8]) -> u64
    ensures { GoesOn all (length bytes.now) (λ c. word_of (slice_index bytes.now c)) result }
{
    let mut sum = all;
    for byte in bytes {
        sum |= word_of(*byte);
    }
    sum
}
