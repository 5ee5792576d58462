//! Suites made of one block cipher.
ghost use Rattle.forms.specs.Keyed.{keyed_by};
ghost use Rattle.forms.proofs.Forming.{keyed_lawful};

use crate::ciphers::{Beside, BlockCipher};
use crate::numbers::big_endian;
use digests::{Chained, Filled, Filling};
use std::marker::PhantomData;
use suite::{Keyed, Suite};

/// The suite with the number N that is made of the block cipher B, and fills headers by the rule G.
///
/// E and D are the cipher under one key and F is the cipher under another. Both keys are made from
/// the delivered one. Numbers are big-endian, and the header digest is chained over E and F.
pub struct OneCipher<B, G, const N: u8> {
    cipher: PhantomData<B>,
    filling: PhantomData<G>,
}

impl<B: BlockCipher + Beside<B> + Copy, G: Filling, const N: u8> Suite for OneCipher<B, G, N> {
    type Permutation = B;

    type ChainingHash = B;

    type HeaderDigest = Filled<Chained<B, B>, G>;

    ghost NUMBER = { N };

    const NUMBER: u8 = N;

    ghost under = { keyed_by B.KeyedHash.keyed B.BlockCipher.inverse G.Filling.fill };

    ghost lawful = { keyed_lawful B.KeyedHash.keyed B.BlockCipher.inverse B.BlockCipher.undone
        G.Filling.fill G.Filling.bytes };

    fn encode(n: u64) -> [u8; 16] {
        big_endian(n)
    }

    // The digest has a copy of the other parts, as it is ended before they are.
    fn set_up(key: [u8; 16]) -> Keyed<B, B, Filled<Chained<B, B>, G>> {
        let delivered = B::under(key);
        let permutation = B::under(delivered.encrypt(big_endian(1)));
        let hash = B::under(delivered.encrypt(big_endian(2)));
        let chained = Chained::new(permutation, hash, big_endian(1));
        Keyed {
            permutation,
            hash,
            digest: Filled::new(chained),
        }
    }

    fn encrypt_and_hash(
        permutation: &B,
        hash: &B,
        x: [u8; 16],
        y: [u8; 16],
    ) -> ([u8; 16], [u8; 16], [u8; 16]) {
        hash.encrypt_and_hash(permutation, x, y)
    }

    fn decrypt_and_hash(
        permutation: &B,
        hash: &B,
        x: [u8; 16],
        y: [u8; 16],
    ) -> ([u8; 16], [u8; 16], [u8; 16]) {
        hash.decrypt_and_hash(permutation, x, y)
    }
}
