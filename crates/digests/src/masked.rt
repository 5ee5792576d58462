//! The masked digest of whole blocks, over any permutation.
ghost use Rattle.std.specs.Prelude.{◌≡◌, replicate};
ghost use Rattle.block.specs.Bytes.{◌⊕◌};
ghost use Rattle.forms.specs.Masked.{masked};

use crate::doubling::double;
use crate::filled::BlockDigest;
use block::xor;
use suite::Permutation;

/// A masked digest in progress, as the POET v2.0 submission has it: the sum so far, and the mask of
/// the next block.
#[derive(Drop)]
pub struct Masked<P> {
    permutation: P,
    sum: [u8; 16],
    mask: [u8; 16],
}

impl<P: Permutation> Masked<P> {
    /// A new digest, whose first mask is `mask`.
    pub fn new(permutation: P, mask: [u8; 16]) -> Masked<P>
        ensures parts { (result.permutation ≡ permutation) × (result.mask ≡ mask) }
        ensures none { result.sum ≡ replicate 16 0 }
    {
        Masked {
            permutation,
            sum: [0; 16],
            mask,
        }
    }

    // The sum with one block more.
    fn with(&self, block: [u8; 16]) -> [u8; 16]
        ensures { result
            ≡ self.now.sum ⊕ P.Permutation.enc self.now.permutation (block ⊕ self.now.mask) }
    {
        xor(self.sum, self.permutation.encrypt(xor(block, self.mask)))
    }
}

impl<P: Permutation> BlockDigest for Masked<P> {
    ghost rule = { λ s. masked (P.Permutation.enc s.permutation) s.sum s.mask };

    fn take(&mut self, block: [u8; 16]) {
        self.sum = self.with(block);
        self.mask = double(self.mask);
    }

    fn end(&self, block: [u8; 16]) -> [u8; 16] {
        self.permutation.encrypt(self.with(block))
    }
}
