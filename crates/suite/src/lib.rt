//! What a suite is: a permutation of the blocks, a chaining hash and a header digest under one key,
//! with the laws that each keeps.
//!
//! Sessions are generic over `Suite`; whoever supplies one proves its laws and its meanings here
//! once.
#![tactic(auto)]

ghost use Rattle.std.specs.Prelude.{◌≡◌, List, [], ◌++◌, ℕ};
ghost use Rattle.block.specs.Bytes.{Block};
ghost use Rattle.block.specs.Permutes.{Permutes};
ghost use Rattle.poet.specs.Functions.{Functions, Lawful};

/// A permutation of the blocks and its inverse.
pub trait Permutation {
    ghost enc: { Self → List ℕ → List ℕ };

    ghost dec: { Self → List ℕ → List ℕ };

    /// The permutation of a block.
    fn encrypt(&self, x: [u8; 16]) -> [u8; 16]
        ensures { result ≡ enc self.now x };

    /// The block that it is the permutation of.
    fn decrypt(&self, x: [u8; 16]) -> [u8; 16]
        ensures { result ≡ dec self.now x };

    // each undoes the other, on every block
    ghost permutes: { (k : Self) → Permutes (enc k) (dec k) };
}

/// A function from block to block, of which no inverse is asked.
pub trait ChainingHash {
    ghost chain: { Self → List ℕ → List ℕ };

    /// The hash of a block.
    fn hash(&self, x: [u8; 16]) -> [u8; 16]
        ensures { result ≡ chain self.now x };
}

/// A digest of a header in progress. It means a rule: from the bytes still to come to the block
/// that it would end with.
pub trait HeaderDigest: Sized {
    ghost rule: { Self → List ℕ → List ℕ };

    /// Takes p: for whatever comes after, the rule gives what it gave before for p and that.
    fn absorb(&mut self, p: &[u8])
        ensures { (r : List ℕ) → rule self.new r ≡ rule self.old (p.now ++ r) };

    /// Ends: what the rule gives for nothing more.
    fn finish(self) -> [u8; 16]
        ensures { result ≡ rule self [] };
}

/// The three parts of a suite, set up under one key.
#[derive(Drop)]
pub struct Keyed<P, H, D> {
    pub permutation: P,
    pub hash: H,
    pub digest: D,
}

/// A suite: its number, its functions under a key of sixteen bytes, and the parts that compute
/// them.
pub trait Suite {
    type Permutation: Permutation + Drop;

    type ChainingHash: ChainingHash + Drop;

    type HeaderDigest: HeaderDigest + Drop;

    ghost NUMBER: { ℕ };

    /// The number by which a delivery names it.
    const NUMBER: u8;

    // its functions under a key
    ghost under: { List ℕ → Functions };

    /// A number as a block, the same under every key.
    fn encode(n: u64) -> [u8; 16]
        ensures { (key : List ℕ) → result ≡ (under key).num n };

    /// The three parts under a key. They mean the suite's functions under it, and the digest is
    /// new.
    fn set_up(key: [u8; 16]) -> Keyed<Self::Permutation, Self::ChainingHash, Self::HeaderDigest>
        ensures enc { Self.Permutation.Permutation.enc result.permutation ≡ (under key).enc }
        ensures dec { Self.Permutation.Permutation.dec result.permutation ≡ (under key).dec }
        ensures chain { Self.ChainingHash.ChainingHash.chain result.hash ≡ (under key).chain }
        ensures dig { Self.HeaderDigest.HeaderDigest.rule result.digest ≡ (under key).dig };

    /// What a row of sealing wants of x and y, side by side where a suite can: x encrypted and
    /// hashed, and y hashed.
    fn encrypt_and_hash(
        permutation: &Self::Permutation,
        hash: &Self::ChainingHash,
        x: [u8; 16],
        y: [u8; 16],
    ) -> ([u8; 16], [u8; 16], [u8; 16])
        ensures first { result.0 ≡ Self.Permutation.Permutation.enc permutation.now x }
        ensures second { result.1 ≡ Self.ChainingHash.ChainingHash.chain hash.now x }
        ensures third { result.2 ≡ Self.ChainingHash.ChainingHash.chain hash.now y }
    {
        (permutation.encrypt(x), hash.hash(x), hash.hash(y))
    }

    /// The same of a row of opening: x decrypted and hashed, and y hashed.
    fn decrypt_and_hash(
        permutation: &Self::Permutation,
        hash: &Self::ChainingHash,
        x: [u8; 16],
        y: [u8; 16],
    ) -> ([u8; 16], [u8; 16], [u8; 16])
        ensures first { result.0 ≡ Self.Permutation.Permutation.dec permutation.now x }
        ensures second { result.1 ≡ Self.ChainingHash.ChainingHash.chain hash.now x }
        ensures third { result.2 ≡ Self.ChainingHash.ChainingHash.chain hash.now y }
    {
        (permutation.decrypt(x), hash.hash(x), hash.hash(y))
    }

    // the functions keep the laws that the mode asks for
    ghost lawful: { (key : List ℕ) → Block key → Lawful (under key) };
}
