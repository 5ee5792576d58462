//! Block ciphers and hashes that are made from a key, and AES-128 as such.
ghost use Rattle.aes.specs.Cipher.{cipher, cipher4, inv_cipher};
ghost use Rattle.aes.specs.Expansion.{aes, aes4, inv_aes, schedule};
ghost use Rattle.aes.proofs.Schedules.{expands, held};
ghost use Rattle.aes.proofs.Undone.{cipher4_permutes, cipher_permutes};
ghost use Rattle.forms.specs.Keyed.{Cipher};
ghost use Rattle.forms.specs.Laws.{Hashes, Inverts};
ghost use Rattle.std.proofs.Common.{ap};
ghost use Rattle.std.specs.Prelude.{◌≡◌, ℕ, List};

use aes::Schedule;
use suite::{ChainingHash, Permutation};

/// A chaining hash that is made from a key.
pub trait KeyedHash: ChainingHash {
    // the hash under each key
    ghost keyed: { Cipher };

    // what holds of a value that was made from a key
    ghost IsUnder: { Self → List ℕ → Type 0 };

    /// The hash under a key.
    fn under(key: [u8; 16]) -> Self
        ensures { IsUnder result key };

    ghost hashes: { (h : Self) (key : List ℕ) → IsUnder h key
        → Self.ChainingHash.chain h ≡ keyed key };

    ghost block: { Hashes keyed };
}

/// A block cipher that is made from a key. As a hash it enciphers.
pub trait BlockCipher: Permutation + KeyedHash {
    ghost inverse: { Cipher };

    ghost encrypts: { (c : Self) (key : List ℕ) → Self.KeyedHash.IsUnder c key
        → Self.Permutation.enc c ≡ Self.KeyedHash.keyed key };

    ghost decrypts: { (c : Self) (key : List ℕ) → Self.KeyedHash.IsUnder c key
        → Self.Permutation.dec c ≡ inverse key };

    ghost undone: { Inverts Self.KeyedHash.keyed inverse };
}

/// A chaining hash beside the permutation P: the three calls that a row wants of them, side by side
/// where they can.
pub trait Beside<P: Permutation>: ChainingHash {
    /// x encrypted and hashed, and y hashed.
    fn encrypt_and_hash(
        &self,
        permutation: &P,
        x: [u8; 16],
        y: [u8; 16],
    ) -> ([u8; 16], [u8; 16], [u8; 16])
        ensures first { result.0 ≡ P.Permutation.enc permutation.now x }
        ensures second { result.1 ≡ Self.ChainingHash.chain self.now x }
        ensures third { result.2 ≡ Self.ChainingHash.chain self.now y }
    {
        (permutation.encrypt(x), self.hash(x), self.hash(y))
    }

    /// x decrypted and hashed, and y hashed.
    fn decrypt_and_hash(
        &self,
        permutation: &P,
        x: [u8; 16],
        y: [u8; 16],
    ) -> ([u8; 16], [u8; 16], [u8; 16])
        ensures first { result.0 ≡ P.Permutation.dec permutation.now x }
        ensures second { result.1 ≡ Self.ChainingHash.chain self.now x }
        ensures third { result.2 ≡ Self.ChainingHash.chain self.now y }
    {
        (permutation.decrypt(x), self.hash(x), self.hash(y))
    }
}

/// AES-128 of FIPS 197, which has ten rounds: its round keys.
#[derive(Clone, Copy)]
pub struct Aes128(Schedule);

impl Permutation for Aes128 {
    ghost enc = { λ a. cipher a.0.keys };

    ghost dec = { λ a. inv_cipher a.0.keys };

    ghost permutes = { λ a. cipher_permutes a.0.keys (held a.0) };

    fn encrypt(&self, x: [u8; 16]) -> [u8; 16] {
        self.0.encipher(x)
    }

    fn decrypt(&self, x: [u8; 16]) -> [u8; 16] {
        self.0.decipher(x)
    }
}

impl ChainingHash for Aes128 {
    ghost chain = { λ a. cipher a.0.keys };

    fn hash(&self, x: [u8; 16]) -> [u8; 16] {
        self.0.encipher(x)
    }
}

impl KeyedHash for Aes128 {
    ghost keyed = { aes };

    ghost IsUnder = { λ a key. a.0.keys ≡ schedule key };

    ghost hashes = { λ a key u. ap cipher u };

    ghost block = { λ key b k p. (cipher_permutes (schedule key) (expands key k)).enc_block b p };

    fn under(key: [u8; 16]) -> Aes128 {
        Aes128(Schedule::new(key))
    }
}

impl BlockCipher for Aes128 {
    ghost inverse = { inv_aes };

    ghost encrypts = { λ a key u. ap cipher u };

    ghost decrypts = { λ a key u. ap inv_cipher u };

    ghost undone = { λ key k. cipher_permutes (schedule key) (expands key k) };
}

impl Beside<Aes128> for Aes128 {
    fn encrypt_and_hash(
        &self,
        permutation: &Aes128,
        x: [u8; 16],
        y: [u8; 16],
    ) -> ([u8; 16], [u8; 16], [u8; 16]) {
        aes::encipher_three(&permutation.0, &self.0, x, y)
    }

    fn decrypt_and_hash(
        &self,
        permutation: &Aes128,
        x: [u8; 16],
        y: [u8; 16],
    ) -> ([u8; 16], [u8; 16], [u8; 16]) {
        aes::decipher_three(&permutation.0, &self.0, x, y)
    }
}

/// The first four rounds of AES-128 with whitening before and after, all of them whole: the POET
/// v2.0 submission's hash of few rounds.
#[derive(Clone, Copy)]
pub struct FourRounds(Schedule);

impl ChainingHash for FourRounds {
    ghost chain = { λ a. cipher4 a.0.keys };

    fn hash(&self, x: [u8; 16]) -> [u8; 16] {
        self.0.encipher4(x)
    }
}

impl KeyedHash for FourRounds {
    ghost keyed = { aes4 };

    ghost IsUnder = { λ a key. a.0.keys ≡ schedule key };

    ghost hashes = { λ a key u. ap cipher4 u };

    ghost block = { λ key b k p. (cipher4_permutes (schedule key) (expands key k)).enc_block b p };

    fn under(key: [u8; 16]) -> FourRounds {
        FourRounds(Schedule::new(key))
    }
}

impl Beside<Aes128> for FourRounds {}
