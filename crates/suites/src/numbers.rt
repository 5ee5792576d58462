//! Numbers as blocks.
ghost use Rattle.std.specs.Prelude.{◌≡◌};
ghost use Rattle.forms.specs.Numbers.{big_endian, little_endian, coded};

/// A number as a block, the most significant byte first.
pub fn big_endian(n: u64) -> [u8; 16]
    ensures { result ≡ big_endian n }
{
    u128::from(n).to_be_bytes()
}

/// A number as a block, the least significant byte first.
pub fn little_endian(n: u64) -> [u8; 16]
    ensures { result ≡ little_endian n }
{
    u128::from(n).to_le_bytes()
}

/// A number as the POET v2.0 submission's suites write it: a constant below 8 is big-endian, and a
/// length in bits, which is more, little-endian.
pub fn coded(n: u64) -> [u8; 16]
    ensures { result ≡ coded n }
{
    if n < 8 {
        big_endian(n)
    } else {
        little_endian(n)
    }
}
