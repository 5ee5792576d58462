//! Speck128/128 as a block cipher that is made from a key.
ghost use Rattle.speck.proofs.Laws.{held, inverts, permutes};
ghost use Rattle.speck.specs.Cipher.{deciphered, enciphered, inv_speck, schedule, speck};
ghost use Rattle.std.proofs.Common.{ap};
ghost use Rattle.std.specs.Prelude.{◌≡◌};

use crate::ciphers::{Beside, BlockCipher, KeyedHash};
use speck::Schedule;
use suite::{ChainingHash, Permutation};

/// Speck128/128: its round keys.
#[derive(Clone, Copy)]
pub struct Speck(Schedule);

impl Permutation for Speck {
    ghost enc = { λ s. enciphered s.0.keys };

    ghost dec = { λ s. deciphered s.0.keys };

    ghost permutes = { λ s. permutes s.0.keys (held s.0) };

    fn encrypt(&self, x: [u8; 16]) -> [u8; 16] {
        self.0.encipher(x)
    }

    fn decrypt(&self, x: [u8; 16]) -> [u8; 16] {
        self.0.decipher(x)
    }
}

impl ChainingHash for Speck {
    ghost chain = { λ s. enciphered s.0.keys };

    fn hash(&self, x: [u8; 16]) -> [u8; 16] {
        self.encrypt(x)
    }
}

impl KeyedHash for Speck {
    ghost keyed = { speck };

    ghost IsUnder = { λ s key. s.0.keys ≡ schedule key };

    ghost hashes = { λ s key u. ap enciphered u };

    ghost block = { λ key b k p. (inverts key k).enc_block b p };

    fn under(key: [u8; 16]) -> Speck {
        Speck(Schedule::new(key))
    }
}

impl BlockCipher for Speck {
    ghost inverse = { inv_speck };

    ghost encrypts = { λ s key u. ap enciphered u };

    ghost decrypts = { λ s key u. ap deciphered u };

    ghost undone = { inverts };
}

impl Beside<Speck> for Speck {}
