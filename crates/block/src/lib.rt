//! Bytes and blocks: what a cipher and a mode both speak of, and two functions on blocks that every
//! layer above needs.
#![tactic(auto)]

ghost use Rattle.block.specs.Bytes.{◌⊕◌};
ghost use Rattle.std.specs.Prelude.{◌≡◌, ◌++◌, take};

use std::array;

/// The exclusive or of two blocks, byte by byte.
pub fn xor(a: [u8; 16], b: [u8; 16]) -> [u8; 16]
    ensures { result ≡ a ⊕ b }
{
    array::from_fn(|i| a[i] ^ b[i])
}

/// The bytes `front`, completed to a block with the first bytes of `fill`; the first sixteen bytes
/// of `front`, if it has more.
pub fn complete(front: &[u8], fill: &[u8; 16]) -> [u8; 16]
    ensures { result ≡ take 16 (front.now ++ fill.now) }
{
    let n = front.len().min(16);
    let mut block = [0; 16];
    block[..n].copy_from_slice(&front[..n]);
    block[n..].copy_from_slice(&fill[..16 - n]);
    block
}
