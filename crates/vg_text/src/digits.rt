//! Bytes as hexadecimal digits.

ghost use Rattle.std.specs.Prelude.{◌≡◌, ◌*◌, ◌<◌, length, slice_index};
ghost use Rattle.hex.specs.Hex.{encode_lower, lower_digits};

/// The digit of a number.
#[tactic(auto, using(crate::proofs::DigitLemmas::digit_is))]
fn digit(number: u8) -> u8
    requires { number < 16 }
    ensures { result ≡ slice_index lower_digits number }
{
    if number < 10 {
        number + 48
    } else {
        number + 87
    }
}

/// Writes each of these bytes as two digits. No table is read, so LLVM spells many bytes at once.
pub(crate) fn spell(bytes: &[u8], out: &mut [u8])
    requires { length out.old ≡ 2 * length bytes.now }
    ensures { out.new ≡ encode_lower bytes.now }
{
    for at in 0..bytes.len() {
        out[2 * at] = digit(bytes[at] / 16);
        out[2 * at + 1] = digit(bytes[at] % 16);
    }
}
