//! The suite: no cipher.
ghost use Rattle.block.specs.Bytes.{◌⊕◌};
ghost use Rattle.std.specs.Prelude.{replicate};
ghost use Rattle.trial_forms.specs.Flipped.{flipped, pattern};
ghost use Rattle.trial_forms.proofs.Flips.{flipped_lawful, flips};

use block::xor;
use suite::{ChainingHash, HeaderDigest, Keyed, Permutation, Suite};
use suites::big_endian;

// 5A, sixteen times.
const PATTERN: [u8; 16] = [0x5a; 16];

/// The sum with a constant block, which is its own inverse.
#[derive(Drop)]
pub struct Flip;

impl Permutation for Flip {
    ghost enc = { λ _ b. b ⊕ pattern };

    ghost dec = { λ _ b. b ⊕ pattern };

    ghost permutes = { λ _. flips };

    fn encrypt(&self, x: [u8; 16]) -> [u8; 16] {
        xor(x, PATTERN)
    }

    fn decrypt(&self, x: [u8; 16]) -> [u8; 16] {
        xor(x, PATTERN)
    }
}

/// A block as it is.
#[derive(Drop)]
pub struct Same;

impl ChainingHash for Same {
    ghost chain = { λ _ b. b };

    fn hash(&self, x: [u8; 16]) -> [u8; 16] {
        x
    }
}

/// Zeros, whatever the header.
#[derive(Drop)]
pub struct Blind;

impl HeaderDigest for Blind {
    ghost rule = { λ _ r. replicate 16 0 };

    fn absorb(&mut self, _p: &[u8]) {}

    fn finish(self) -> [u8; 16] {
        [0; 16]
    }
}

/// The suite with no cipher, whose number is 0.
pub struct Flipped;

impl Suite for Flipped {
    type Permutation = Flip;

    type ChainingHash = Same;

    type HeaderDigest = Blind;

    ghost NUMBER = { 0 };

    const NUMBER: u8 = 0;

    ghost under = { flipped };

    ghost lawful = { flipped_lawful };

    fn encode(n: u64) -> [u8; 16] {
        big_endian(n)
    }

    fn set_up(_key: [u8; 16]) -> Keyed<Flip, Same, Blind> {
        Keyed {
            permutation: Flip,
            hash: Same,
            digest: Blind,
        }
    }
}
