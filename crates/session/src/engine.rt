//! A suite's parts under a key, once the header is taken, and the rows over them.

// The contracts name the members of the suite: the type of a struct with no ghost field does not.
ghost use Rattle.std.specs.Prelude.{◌≡◌, ℕ, ◌+◌, ◌*◌, ◌≤◌, List, ◌++◌, length, take, drop};
ghost use Rattle.poet.specs.Functions.{Functions};
ghost use Rattle.poet.specs.Rows.{closing, length_mask};
ghost use Rattle.poet.specs.Seal.{body_most};
ghost use Rattle.session.specs.Directions.{picks};
ghost use Rattle.session.specs.Engines.{EngineAt};
ghost use Rattle.session.specs.Steps.{Ended, Ran, Stepped};

use crate::blocks::next_block;
use crate::rows::{Lanes, Way};
use block::xor;
use buffer::Buffer;
use suite::{ChainingHash, Permutation, Suite};

#[derive(Drop)]
pub(crate) struct Engine<S: Suite> {
    pub(crate) permutation: S::Permutation,
    pub(crate) hash: S::ChainingHash,
    pub(crate) tau: [u8; 16],
}

impl<S: Suite> Engine<S> {
    // One row, of which the chaining hash of the block where blocks come in is known: the block
    // that it gives, with both sequences one block on, and that hash for the next row.
    #[inline(always)]
    fn row<W: Way>(
        &self,
        lanes: Lanes,
        hashed: [u8; 16],
        block: [u8; 16],
    ) -> (Lanes, [u8; 16], [u8; 16])
        ensures stepped { (f : Functions) (H : List ℕ)
            → EngineAt S.Permutation.Permutation S.ChainingHash.ChainingHash f H self.now
            → hashed ≡ f.chain lanes.taking
            → Stepped (picks W.Way.way f.enc f.dec) f.chain lanes block result.0 result.1 }
        ensures hashed { (f : Functions) (H : List ℕ)
            → EngineAt S.Permutation.Permutation S.ChainingHash.ChainingHash f H self.now
            → result.2 ≡ f.chain result.0.taking }
    {
        let taking = xor(block, hashed);
        let (giving, next, over) = W::ahead::<S>(
            &self.permutation,
            &self.hash,
            taking,
            lanes.giving,
        );
        let given = xor(giving, over);
        (Lanes { taking, giving }, given, next)
    }

    // The last row, with the mask on both sides of the permutation.
    pub(crate) fn last_row<W: Way>(
        &self,
        lanes: Lanes,
        mask: [u8; 16],
        block: [u8; 16],
    ) -> (Lanes, [u8; 16])
        ensures { (f : Functions) (H : List ℕ)
            → EngineAt S.Permutation.Permutation S.ChainingHash.ChainingHash f H self.now
            → Ended (picks W.Way.way f.enc f.dec) f.chain mask lanes block result.0 result.1 }
    {
        let taking = xor(xor(block, mask), self.hash.hash(lanes.taking));
        let giving = W::pass(&self.permutation, taking);
        let given = xor(xor(giving, self.hash.hash(lanes.giving)), mask);
        (Lanes { taking, giving }, given)
    }

    // n rows over the bytes held and the input behind them; what they give goes to the front of
    // `out`, and the bytes that they leave are held, as many as there is room for.
    pub(crate) fn run<W: Way>(
        &self,
        lanes: Lanes,
        held: &mut Buffer<16>,
        input: &[u8],
        out: &mut [u8],
        n: usize,
    ) -> Lanes
        requires within { 16 * n ≤ length held.old + length input.now }
        requires room { 16 * n ≤ length out.old }
        ensures ran { (f : Functions) (H : List ℕ)
            → EngineAt S.Permutation.Permutation S.ChainingHash.ChainingHash f H self.now
            → Ran (picks W.Way.way f.enc f.dec) f.chain
            lanes (held.old ++ input.now) out.old n result out.new }
        ensures left { held.new ≡ take 16 (drop (16 * n) (held.old ++ input.now)) }
    {
        if n == 0 {
            held.extend(input);
            return lanes;
        }
        let mut lanes = lanes;
        let mut input = input;
        let mut hashed = self.hash.hash(lanes.taking);
        // Indices and not chunks_exact_mut: after that a proof knows the length of `out`, and not
        // its bytes.
        for i in 0..n {
            let more = 16 - held.as_slice().len();
            let block = next_block(held, input);
            input = &input[more..];
            let (next, given, further) = self.row::<W>(lanes, hashed, block);
            lanes = next;
            hashed = further;
            let at = 16 * i;
            out[at..at + 16].copy_from_slice(&given);
        }
        held.extend(input);
        lanes
    }

    // S for a message of `len` bytes.
    pub(crate) fn mask(&self, len: usize) -> [u8; 16]
        requires { len ≤ body_most }
        ensures { (key H : List ℕ)
            → EngineAt S.Permutation.Permutation S.ChainingHash.ChainingHash
            (S.Suite.under key) H self.now
            → result ≡ length_mask (S.Suite.under key) len }
    {
        // A cast, since there is no `From` of a `usize`.
        self.permutation.encrypt(S::encode(8 * len as u64))
    }

    // Z, from τ and the last X and Y.
    pub(crate) fn closing(&self, x: [u8; 16], y: [u8; 16]) -> [u8; 16]
        ensures { (f : Functions) (H : List ℕ)
            → EngineAt S.Permutation.Permutation S.ChainingHash.ChainingHash f H self.now
            → result ≡ closing f (f.dig H) x y }
    {
        let inner = self.permutation.encrypt(xor(self.hash.hash(x), self.tau));
        xor(xor(inner, self.hash.hash(y)), self.tau)
    }
}
