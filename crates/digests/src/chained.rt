//! The chained digest of whole blocks, over any permutation and any chaining hash.
ghost use Rattle.std.specs.Prelude.{◌≡◌};
ghost use Rattle.forms.specs.Chained.{chained};

use crate::filled::BlockDigest;
use block::xor;
use suite::{ChainingHash, Permutation};

/// A chained digest in progress: the last X and Y.
#[derive(Drop)]
pub struct Chained<P, H> {
    permutation: P,
    hash: H,
    x: [u8; 16],
    y: [u8; 16],
}

impl<P: Permutation, H: ChainingHash> Chained<P, H> {
    /// A new digest, whose rows begin at the block `first`.
    pub fn new(permutation: P, hash: H, first: [u8; 16]) -> Chained<P, H>
        ensures parts { (result.permutation ≡ permutation) × (result.hash ≡ hash) }
        ensures rows { (result.x ≡ first) × (result.y ≡ first) }
    {
        Chained {
            permutation,
            hash,
            x: first,
            y: first,
        }
    }
}

impl<P: Permutation, H: ChainingHash> BlockDigest for Chained<P, H> {
    ghost rule = { λ s. chained (P.Permutation.enc s.permutation) (H.ChainingHash.chain s.hash)
        s.x s.y };

    fn take(&mut self, block: [u8; 16]) {
        let x = xor(self.hash.hash(self.x), block);
        self.y = self.permutation.encrypt(x);
        self.x = x;
    }

    fn end(&self, block: [u8; 16]) -> [u8; 16] {
        let last = self.permutation.encrypt(xor(self.hash.hash(self.x), block));
        xor(self.hash.hash(self.y), last)
    }
}
