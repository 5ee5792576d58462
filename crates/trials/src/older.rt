//! The submission's suites with the older form of its header digest, by which its published vectors
//! were made.
ghost use Rattle.aes.specs.Expansion.{aes, inv_aes};
ghost use Rattle.std.specs.Prelude.{◌≡◌, ℕ, ◌≤◌, List, [], ◌∷◌, ◌++◌, length, replicate};
ghost use Rattle.suites.proofs.Lawful.{aes_inverts};
ghost use Rattle.trial_forms.specs.Older.{last_mask, older, older_suite};
ghost use Rattle.trial_forms.proofs.Olders.{older_lawful};

use block::{complete, xor};
use buffer::Buffer;
use digests::double;
use std::marker::PhantomData;
use suite::{HeaderDigest, Keyed, Permutation, Suite};
use suites::{Aes128, KeyedHash, Keys, coded};

const PADDING: [u8; 16] = [0x80, 0, 0, 0, 0, 0, 0, 0, 0, 0, 0, 0, 0, 0, 0, 0];

/// A digest in progress. A full block waits until it is known whether more bytes follow.
#[derive(Drop)]
pub struct Older<P> {
    permutation: P,
    sum: [u8; 16],
    mask: [u8; 16],
    held: Buffer<16>,
}

impl<P: Permutation + Drop> Older<P> {
    fn new(permutation: P, mask: [u8; 16]) -> Older<P>
        ensures parts { (result.permutation ≡ permutation) × (result.mask ≡ mask) }
        ensures none { (result.sum ≡ replicate 16 0) × (result.held ≡ []) }
    {
        Older {
            permutation,
            sum: [0; 16],
            mask,
            held: Buffer::new(),
        }
    }

    // One byte more.
    fn push(&mut self, b: u8)
        ensures { (r : List ℕ) → ⟦<Older<P> as HeaderDigest>⟧.rule self.new r
            ≡ ⟦<Older<P> as HeaderDigest>⟧.rule self.old (b ∷ r) }
    {
        match self.held.full() {
            None => self.held.push(b),
            Some(block) => {
                self.sum = xor(self.sum, self.permutation.encrypt(xor(block, self.mask)));
                self.mask = double(self.mask);
                self.held = Buffer::new();
                self.held.push(b);
            }
        }
    }
}

impl<P: Permutation + Drop> HeaderDigest for Older<P> {
    ghost rule = { λ s r. older (P.Permutation.enc s.permutation) s.sum s.mask (s.held ++ r) };

    fn absorb(&mut self, p: &[u8]) {
        for b in p {
            self.push(*b);
        }
    }

    fn finish(self) -> [u8; 16] {
        let Older {
            permutation,
            sum,
            mask,
            held,
        } = self;
        let block = complete(held.as_slice(), &PADDING);
        let last = xor(block, last_mask(held.as_slice(), mask));
        permutation.encrypt(xor(sum, last))
    }
}

// 3 times the mask for a last block that is whole, and 5 times it for one that is filled.
fn last_mask(held: &[u8], mask: [u8; 16]) -> [u8; 16]
    requires { length held.now ≤ 16 }
    ensures { result ≡ last_mask held.now mask }
{
    let twice = double(mask);
    if held.len() == 16 {
        xor(mask, twice)
    } else {
        xor(mask, double(twice))
    }
}

/// The suite with the chaining hash H.
pub struct OlderSuite<H> {
    hash: PhantomData<H>,
}

impl<H: KeyedHash + Drop> Suite for OlderSuite<H> {
    type Permutation = Aes128;

    type ChainingHash = H;

    type HeaderDigest = Older<Aes128>;

    ghost NUMBER = { 0 };

    const NUMBER: u8 = 0;

    ghost under = { older_suite aes inv_aes H.KeyedHash.keyed };

    ghost lawful = { older_lawful aes inv_aes aes_inverts H.KeyedHash.keyed H.KeyedHash.block };

    fn encode(n: u64) -> [u8; 16] {
        coded(n)
    }

    fn set_up(key: [u8; 16]) -> Keyed<Aes128, H, Older<Aes128>> {
        let keys = Keys::new::<Aes128>(key);
        let permutation = Aes128::under(keys.cipher);
        Keyed {
            permutation,
            hash: H::under(keys.chain),
            digest: Older::new(permutation, keys.mask),
        }
    }
}
