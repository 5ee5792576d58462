//! The suites of the POET v2.0 submission without intermediate tags: POET-AES10-AES4, whose
//! chaining hash has four rounds, and POET-AES10-AES10, where it has ten.
ghost use Rattle.forms.specs.Keyed.{key_of};
ghost use Rattle.forms.specs.Submitted.{submitted_by, zeros};
ghost use Rattle.forms.proofs.Forming.{submitted_lawful, zeros_block};
ghost use Rattle.std.specs.Prelude.{◌≡◌};

use crate::ciphers::{Aes128, Beside, BlockCipher, FourRounds, KeyedHash};
use crate::listed::{POET_AES_FOUR, POET_AES_TEN};
use crate::numbers::{big_endian, coded};
use digests::{AlwaysPadded, Filled, Masked};
use std::marker::PhantomData;
use suite::{HeaderDigest, Keyed, Suite};

/// The keys that are made from the delivered one: of the permutation, of the masks, and of the
/// chaining hash.
#[derive(Clone, Copy)]
pub struct Keys {
    pub cipher: [u8; 16],
    pub mask: [u8; 16],
    pub chain: [u8; 16],
}

impl Keys {
    /// The numbers 0, 1 and 2, enciphered by B under the delivered key.
    pub fn new<B: BlockCipher + Drop>(delivered: [u8; 16]) -> Keys
        ensures cipher { result.cipher ≡ key_of B.KeyedHash.keyed delivered 0 }
        ensures mask { result.mask ≡ key_of B.KeyedHash.keyed delivered 1 }
        ensures chain { result.chain ≡ key_of B.KeyedHash.keyed delivered 2 }
    {
        let delivered = B::under(delivered);
        Keys {
            cipher: delivered.encrypt(big_endian(0)),
            mask: delivered.encrypt(big_endian(1)),
            chain: delivered.encrypt(big_endian(2)),
        }
    }
}

/// The suite with the number N, in the submission's form: of the block cipher B and the chaining
/// hash H.
pub struct Submission<B, H, const N: u8> {
    cipher: PhantomData<B>,
    hash: PhantomData<H>,
}

/// POET-AES10-AES4.
pub type PoetAesFour = Submission<Aes128, FourRounds, POET_AES_FOUR>;

/// POET-AES10-AES10.
pub type PoetAesTen = Submission<Aes128, Aes128, POET_AES_TEN>;

impl<B, H, const N: u8> Suite for Submission<B, H, N>
where
    B: BlockCipher + Copy,
    H: KeyedHash + Beside<B> + Drop,
{
    type Permutation = B;

    type ChainingHash = H;

    type HeaderDigest = Filled<Masked<B>, AlwaysPadded>;

    ghost NUMBER = { N };

    const NUMBER: u8 = N;

    ghost under = { submitted_by B.KeyedHash.keyed B.BlockCipher.inverse H.KeyedHash.keyed zeros };

    ghost lawful = { submitted_lawful B.KeyedHash.keyed B.BlockCipher.inverse B.BlockCipher.undone
        H.KeyedHash.keyed H.KeyedHash.block zeros zeros_block.bytes };

    fn encode(n: u64) -> [u8; 16] {
        coded(n)
    }

    // Sixteen zeros stand before every header.
    fn set_up(key: [u8; 16]) -> Keyed<B, H, Filled<Masked<B>, AlwaysPadded>> {
        let keys = Keys::new::<B>(key);
        let permutation = B::under(keys.cipher);
        let mut digest = Filled::new(Masked::new(permutation, keys.mask));
        digest.absorb(&[0; 16]);
        Keyed {
            permutation,
            hash: H::under(keys.chain),
            digest,
        }
    }

    fn encrypt_and_hash(
        permutation: &B,
        hash: &H,
        x: [u8; 16],
        y: [u8; 16],
    ) -> ([u8; 16], [u8; 16], [u8; 16]) {
        hash.encrypt_and_hash(permutation, x, y)
    }

    fn decrypt_and_hash(
        permutation: &B,
        hash: &H,
        x: [u8; 16],
        y: [u8; 16],
    ) -> ([u8; 16], [u8; 16], [u8; 16]) {
        hash.decrypt_and_hash(permutation, x, y)
    }
}
