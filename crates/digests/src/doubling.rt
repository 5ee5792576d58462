//! Blocks as polynomials over the bits, times x.
ghost use Rattle.std.specs.Prelude.{◌≡◌, ◌<◌, slice_index};
ghost use Rattle.forms.specs.Double.{double, moved};

use std::array;

// Byte i of a block that is moved on by a bit.
fn moved_byte(b: &[u8; 16], i: usize) -> u8
    requires { i < 16 }
    ensures { result ≡ slice_index (moved 0 b.now) i }
{
    if i == 0 {
        b[0] / 2
    } else {
        128 * (b[i - 1] % 2) + b[i] / 2
    }
}

/// x times a block, in the order of bits of NIST's GCM.
pub fn double(b: [u8; 16]) -> [u8; 16]
    ensures { result ≡ double b }
{
    let mut doubled = array::from_fn(|i| moved_byte(&b, i));
    doubled[0] ^= 0xe1 * (b[15] % 2);
    doubled
}
