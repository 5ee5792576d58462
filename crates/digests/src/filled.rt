//! A header digest made of a digest of whole blocks and a rule of filling.
ghost use Rattle.std.specs.Prelude.{◌≡◌, ℕ, ◌≤◌, List, [], ◌∷◌, ◌++◌, length};

use crate::filling::Filling;
use buffer::Buffer;
use std::marker::PhantomData;
use suite::HeaderDigest;

/// A digest of whole blocks in progress: a rule gives, for whatever whole blocks are still to come,
/// the block that it would end with.
pub trait BlockDigest {
    ghost rule: { Self → List ℕ → List ℕ };

    /// Takes a block that others follow.
    fn take(&mut self, block: [u8; 16])
        ensures { (B : List ℕ) → 16 ≤ length B → rule self.new B ≡ rule self.old (block ++ B) };

    /// The block that it ends with, where `block` is the last one.
    fn end(&self, block: [u8; 16]) -> [u8; 16]
        ensures { result ≡ rule self.now block };
}

/// A digest of headers in progress: that of the blocks taken, and the bytes behind them. A full
/// block waits until it is known whether more bytes follow, since the rule of filling may treat the
/// last block in a way of its own.
#[derive(Drop)]
pub struct Filled<D, G> {
    digest: D,
    held: Buffer<16>,
    filling: PhantomData<G>,
}

impl<D: BlockDigest + Drop, G: Filling> Filled<D, G> {
    /// A new digest over a new one of whole blocks.
    pub fn new(digest: D) -> Filled<D, G>
        ensures digest { result.digest ≡ digest }
        ensures none_held { result.held ≡ [] }
    {
        Filled {
            digest,
            held: Buffer::new(),
            filling: PhantomData,
        }
    }

    // One byte more.
    fn push(&mut self, b: u8)
        ensures { (r : List ℕ) → ⟦<Filled<D, G> as HeaderDigest>⟧.rule self.new r
            ≡ ⟦<Filled<D, G> as HeaderDigest>⟧.rule self.old (b ∷ r) }
    {
        match self.held.full() {
            None => self.held.push(b),
            Some(block) => {
                self.digest.take(block);
                self.held = Buffer::new();
                self.held.push(b);
            }
        }
    }
}

impl<D: BlockDigest + Drop, G: Filling> HeaderDigest for Filled<D, G> {
    ghost rule = { λ s r. D.BlockDigest.rule s.digest (G.Filling.fill (s.held ++ r)) };

    fn absorb(&mut self, p: &[u8]) {
        for b in p {
            self.push(*b);
        }
    }

    fn finish(mut self) -> [u8; 16] {
        let (block, further) = G::last(&self.held);
        match further {
            None => self.digest.end(block),
            Some(last) => {
                self.digest.take(block);
                self.digest.end(last)
            }
        }
    }
}
