//! Blocks out of bytes that come in stretches, and their comparison.
ghost use Rattle.std.specs.Prelude.{◌≡◌, ◌≢◌, ◌+◌, ◌≤◌, [], ◌++◌, length, take, true, false};
ghost use Rattle.std.specs.Prelude.{fold, bit_or, bit_xor};
ghost use Rattle.std.specs.List.{zip};

use block::complete;
use buffer::Buffer;

// The next block: the bytes held, filled up from the input. Then none are held.
#[inline(always)]
pub(crate) fn next_block(held: &mut Buffer<16>, input: &[u8]) -> [u8; 16]
    requires { 16 ≤ length held.old + length input.now }
    ensures block { result ≡ take 16 (held.old ++ input.now) }
    ensures none_held { held.new ≡ [] }
{
    if held.as_slice().is_empty() {
        let mut block = [0; 16];
        block.copy_from_slice(&input[..16]);
        return block;
    }
    held.extend(input);
    let block = complete(held.as_slice(), &[0; 16]);
    *held = Buffer::new();
    block
}

// Every difference of two bytes, one upon another.
fn differences(a: &[u8; 16], b: &[u8; 16]) -> u8
    ensures { result ≡ fold (λ d p. bit_or d (bit_xor p.0 p.1)) 0 (zip a.now b.now) }
{
    a.iter().zip(b).fold(0, |differ, (x, y)| differ | (x ^ y))
}

// Whether two blocks are equal. Every byte is compared, wherever the first difference lies.
pub(crate) fn same(a: &[u8; 16], b: &[u8; 16]) -> bool
    ensures yes { result ≡ true → a.now ≡ b.now }
    ensures no { result ≡ false → a.now ≢ b.now }
{
    differences(a, b) == 0
}
