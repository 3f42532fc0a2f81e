//! The bytes that tell of others in a packed text.

ghost use Rattle.std.specs.Prelude.{◌≡◌, ◌≤◌, ◌<◌, []};
ghost use Rattle.vg_text.specs.Packing.{said, next};

/// The byte that tells of so many bytes to come, or of as many as one byte can, and how many those are.
pub(crate) fn tell(count: usize) -> (u8, usize)
    requires { 1 ≤ count }
    ensures says { said 0 result.0 ≡ [] }
    ensures next { next 0 result.0 ≡ result.1 }
    ensures size { (1 ≤ result.1) × (result.1 ≤ count) }
{
    if count < 128 {
        let few = count.min(64);
        (127 + few as u8, few)
    } else {
        let many = (count / 64).min(32);
        (191 + many as u8, 64 * many)
    }
}

/// How many bytes a byte tells of.
pub(crate) fn told(first: u8) -> usize
    requires { (128 ≤ first) × (first < 224) }
    ensures next { result ≡ next 0 first }
    ensures few { result ≤ 2048 }
{
    let first = first as usize;
    if first < 192 {
        first - 127
    } else {
        64 * (first - 191)
    }
}
