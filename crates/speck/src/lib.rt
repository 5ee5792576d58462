//! Speck128/128: 32 rounds of an addition, two rotations and two exclusive ors on two words of 64
//! bits. By Beaulieu, Shors, Smith, Treatman-Clark, Weeks and Wingers, "The SIMON and SPECK
//! Families of Lightweight Block Ciphers".
//!
//! Words are big-endian, x before y and l before k, as that paper prints its vector. Programs by
//! the designers' later guide for implementers reverse all sixteen bytes of key and block.
//!
//! No step looks a table up or branches on a byte of the key or the block. What a processor or a
//! compiler makes of that is not proved.
//!
//! A function whose name ends in `_stands` does nothing: its contract is a theorem, and the crate
//! is refused without the proof.
#![tactic(auto)]

ghost use Rattle.speck.specs.Cipher.{deciphered, enciphered, schedule};
ghost use Rattle.speck.specs.Laws.{CipherLaw, ExpansionLaw, IsSchedule, Published, SpeckLaw};
ghost use Rattle.std.specs.Prelude.{◌≡◌, ◌<◌, ◌^◌, All, length};

mod words;

use words::Words;

/// The 32 round keys of a key.
///
/// It is `Copy`, so its round keys cannot be wiped when it is dropped.
#[derive(Clone, Copy)]
pub struct Schedule {
    keys: [u64; 32],
    ghost count: { length keys ≡ 32 },
    ghost words: { All (λ k. k < 2 ^ 64) keys },
}

impl Schedule {
    /// The round keys of a key: its first eight bytes are l, its last eight k.
    pub fn new(key: [u8; 16]) -> Schedule
        ensures { result.keys ≡ schedule key }
    {
        let mut keys = [0; 32];
        // The words of the key go through the very steps of a block's: l as x, k as y, and the
        // number of the round as its key. What round 31 leaves is not used.
        let mut words = Words::from_block(key);
        for (i, k) in keys.iter_mut().enumerate() {
            *k = words.y;
            words = words.round(i as u64);
        }
        Schedule { keys }
    }

    /// Enciphers a block.
    #[tactic(auto, using(crate::proofs::Rounds::forward))]
    pub fn encipher(&self, block: [u8; 16]) -> [u8; 16]
        ensures { result ≡ enciphered self.now.keys block }
    {
        let mut words = Words::from_block(block);
        for key in &self.keys {
            words = words.round(*key);
        }
        words.to_block()
    }

    /// Deciphers a block, which undoes `encipher`.
    #[tactic(auto, using(crate::proofs::Rounds::backward))]
    pub fn decipher(&self, block: [u8; 16]) -> [u8; 16]
        ensures { result ≡ deciphered self.now.keys block }
    {
        let mut words = Words::from_block(block);
        for key in self.keys.iter().rev() {
            words = words.unround(*key);
        }
        words.to_block()
    }
}

/// The cipher permutes the blocks under every schedule, and its inverse undoes it. Every key
/// expands to a schedule, and every value of `Schedule` holds one, so the same is true under every
/// key. The definitions take the plaintext that the designers published, under its key, to its
/// ciphertext.
pub fn speck_stands() -> u8
    ensures schedules { CipherLaw }
    ensures expands { ExpansionLaw }
    ensures holds { (s : Schedule) → IsSchedule s.keys }
    ensures keys { SpeckLaw }
    ensures published { Published }
{
    0
}
