//! The mirror suite, for trials of the mode alone: it is no cipher.
ghost use Rattle.forms.proofs.Fillings.{filled_bytes};
ghost use Rattle.forms.proofs.Forming.{chained_lawful};
ghost use Rattle.forms.proofs.Reversing.{reversal};
ghost use Rattle.forms.specs.Filling.{filled};
ghost use Rattle.std.specs.Prelude.{reverse};
ghost use Rattle.suites.specs.Mirror.{mirror};
ghost use Rattle.suites.specs.declared.listed.TheConstants.{MIRROR};

use crate::listed::MIRROR;
use crate::numbers::big_endian;
use digests::{Chained, Filled, WholeStays};
use suite::{ChainingHash, Keyed, Permutation, Suite};

/// The sixteen bytes in reverse.
#[derive(Clone, Copy)]
pub struct Reversal;

impl Permutation for Reversal {
    ghost enc = { λ _ x. reverse x };

    ghost dec = { λ _ x. reverse x };

    ghost permutes = { λ _. reversal };

    fn encrypt(&self, x: [u8; 16]) -> [u8; 16] {
        let mut y = x;
        y.reverse();
        y
    }

    fn decrypt(&self, x: [u8; 16]) -> [u8; 16] {
        self.encrypt(x)
    }
}

/// A block as it is.
#[derive(Clone, Copy)]
pub struct Identity;

impl ChainingHash for Identity {
    ghost chain = { λ _ x. x };

    fn hash(&self, x: [u8; 16]) -> [u8; 16] {
        x
    }
}

/// E and D reverse a block, and F returns it. The key is read and not used.
pub struct Mirror;

impl Suite for Mirror {
    type Permutation = Reversal;

    type ChainingHash = Identity;

    type HeaderDigest = Filled<Chained<Reversal, Identity>, WholeStays>;

    ghost NUMBER = { MIRROR };

    const NUMBER: u8 = MIRROR;

    ghost under = { mirror };

    ghost lawful = { λ _ _. chained_lawful reverse reverse (λ b. b) reversal (λ b p. p)
        filled filled_bytes };

    fn encode(n: u64) -> [u8; 16] {
        big_endian(n)
    }

    fn set_up(_key: [u8; 16]) -> Keyed<Reversal, Identity, Self::HeaderDigest> {
        let chained = Chained::new(Reversal, Identity, big_endian(1));
        Keyed {
            permutation: Reversal,
            hash: Identity,
            digest: Filled::new(chained),
        }
    }
}
