//! AES-128 of FIPS 197 with ten rounds, and the same with four whole rounds, both ways.
//!
//! A function whose name ends in `_stands` does nothing: its contract is a theorem, and the crate
//! is refused without the proof.
#![tactic(auto)]

ghost use Rattle.std.specs.Prelude.{◌≡◌, ℕ, ◌+◌, ◌-◌, ◌<◌, List, map, length, slice_index};
ghost use Rattle.block.specs.Bytes.{Block};
ghost use Rattle.aes.specs.Tower.{key_in_tower, unmixed_in_tower};
ghost use Rattle.aes.specs.Between.{AfterRounds, BeforeRounds};
ghost use Rattle.aes.specs.Cipher.{IsSchedule, cipher, cipher4, inv_cipher, inv_cipher4, key_at};
ghost use Rattle.aes.specs.Cipher.{rounds};
ghost use Rattle.aes.specs.Expansion.{schedule};
ghost use Rattle.aes.specs.Grouping.{unrounds};
ghost use Rattle.aes.specs.Laws.{AesLaw, Aes4Law, CipherLaw, Cipher4Law, ExpansionLaw};

mod keys;
mod steps;
mod tables;
mod tower;

use keys::next_key;
use steps::{add_round_key, shift_rows, unshift_rows};
use tower::{
    begin_unsub_bytes, end_unsub_bytes, enter_round_key, enter_tower, leave_tower, round_in_tower,
    sub_bytes_leaving, undo_round, undo_round_in_tower, unmix_round_key,
};
pub use tower::{sub_bytes, unsub_bytes};

/// The eleven round keys of an AES-128 key, FIPS 197, ready for both ways through the rounds.
///
/// It is `Copy`, so its round keys cannot be wiped when it is dropped.
#[derive(Clone, Copy)]
pub struct Schedule {
    // as KeyExpansion gives them
    keys: [[u8; 16]; 11],
    // as a round in the tower takes them
    forth: [[u8; 16]; 11],
    // as a round undone in the tower takes them
    back: [[u8; 16]; 11],
    ghost count: { length keys ≡ 11 },
    ghost sizes: { (i : ℕ) → i < 11 → length (key_at keys i) ≡ 16 },
    ghost bytes: { (i : ℕ) → i < 11 → (j : ℕ) → j < 16 → slice_index (key_at keys i) j < 256 },
    ghost forth_count: { length forth ≡ 11 },
    ghost entered: { (i : ℕ) → i < 11 → key_at forth i ≡ map key_in_tower (key_at keys i) },
    ghost back_count: { length back ≡ 11 },
    ghost unmixed: { (i : ℕ) → i < 11 → key_at back i ≡ unmixed_in_tower (key_at keys i) },
}

impl Schedule {
    /// The round keys of a key, by KeyExpansion of FIPS 197.
    pub fn new(key: [u8; 16]) -> Schedule
        ensures { result.keys ≡ schedule key }
    {
        let mut keys = [key; 11];
        let mut k = key;
        let mut rc = 1;
        // By index: the borrow checker does not cover writing arrays through `&mut keys[1..]`.
        for i in 0..10 {
            let next = next_key(k, rc);
            rc = field::double(rc);
            keys[i + 1] = next;
            k = next;
        }
        let forth = keys.map(enter_round_key);
        let back = keys.map(unmix_round_key);
        Schedule { keys, forth, back }
    }

    // The rounds n to 1 undone, outside the tower.
    fn undo_rounds(&self, n: usize, start: [u8; 16]) -> [u8; 16]
        requires { n < 11 }
        ensures { result ≡ unrounds self.now.keys n start }
    {
        let mut s = start;
        for key in self.keys[1..n + 1].iter().rev() {
            s = undo_round(add_round_key(*key, s));
        }
        s
    }

    /// Enciphers a block in ten rounds: Cipher of FIPS 197.
    pub fn encipher(&self, x: [u8; 16]) -> [u8; 16]
        ensures { result ≡ cipher self.now.keys x }
    {
        self.last_round(self.whole_rounds(9, x))
    }

    /// Deciphers a block: InvCipher of FIPS 197, which undoes `encipher`.
    pub fn decipher(&self, y: [u8; 16]) -> [u8; 16]
        ensures { result ≡ inv_cipher self.now.keys y }
    {
        let mut w = self.undo_last_round(y);
        for i in 0..9 {
            let next = self.undo_whole_round(i, w);
            w = next;
        }
        self.leave_undone(w)
    }

    /// Enciphers a block in the first four rounds of FIPS 197, each of which mixes columns.
    pub fn encipher4(&self, x: [u8; 16]) -> [u8; 16]
        ensures { result ≡ cipher4 self.now.keys x }
    {
        leave_tower(self.whole_rounds(4, x))
    }

    /// Undoes `encipher4`.
    pub fn decipher4(&self, y: [u8; 16]) -> [u8; 16]
        ensures { result ≡ inv_cipher4 self.now.keys y }
    {
        add_round_key(self.keys[0], self.undo_rounds(4, y))
    }
}

// A block on its way through the tower.
impl Schedule {
    // It enters the tower under round key 0,
    #[inline(always)]
    fn enter(&self, x: [u8; 16]) -> [u8; 16]
        ensures { AfterRounds self.now.keys 0 x result }
    {
        enter_tower(add_round_key(self.keys[0], x))
    }

    // goes through the whole round i + 1,
    #[inline(always)]
    fn whole_round(&self, i: usize, s: [u8; 16]) -> [u8; 16]
        requires { i < 10 }
        ensures { (x : List ℕ) → Block x → AfterRounds self.now.keys i x s
            → AfterRounds self.now.keys (i + 1) x result }
    {
        round_in_tower(s, self.forth[i + 1])
    }

    // or through the first n of them,
    fn whole_rounds(&self, n: usize, x: [u8; 16]) -> [u8; 16]
        requires { n < 11 }
        ensures { AfterRounds self.now.keys n x result }
    {
        let mut s = self.enter(x);
        for i in 0..n {
            let next = self.whole_round(i, s);
            s = next;
        }
        s
    }

    // and leaves the tower by the last round.
    #[inline(always)]
    fn last_round(&self, s: [u8; 16]) -> [u8; 16]
        ensures { (x : List ℕ) → Block x → AfterRounds self.now.keys 9 x s
            → result ≡ cipher self.now.keys x }
    {
        add_round_key(self.keys[10], shift_rows(sub_bytes_leaving(s)))
    }

    // On the way back it enters by the last round undone,
    #[inline(always)]
    fn undo_last_round(&self, y: [u8; 16]) -> [u8; 16]
        ensures { BeforeRounds self.now.keys 9 y result }
    {
        begin_unsub_bytes(unshift_rows(add_round_key(self.keys[10], y)))
    }

    // has the whole round 9 - i undone,
    #[inline(always)]
    fn undo_whole_round(&self, i: usize, s: [u8; 16]) -> [u8; 16]
        requires { i < 9 }
        ensures { (y : List ℕ) → BeforeRounds self.now.keys (9 - i) y s
            → BeforeRounds self.now.keys (9 - (i + 1)) y result }
    {
        undo_round_in_tower(s, self.back[9 - i])
    }

    // and leaves under round key 0.
    #[inline(always)]
    fn leave_undone(&self, s: [u8; 16]) -> [u8; 16]
        ensures { (y : List ℕ) → BeforeRounds self.now.keys 0 y s
            → result ≡ inv_cipher self.now.keys y }
    {
        add_round_key(self.keys[0], end_unsub_bytes(s))
    }
}

/// x enciphered under a and under b, and y under b, side by side, so that the processor overlaps
/// them.
pub fn encipher_three(
    a: &Schedule,
    b: &Schedule,
    x: [u8; 16],
    y: [u8; 16],
) -> ([u8; 16], [u8; 16], [u8; 16])
    ensures first { result.0 ≡ cipher a.now.keys x }
    ensures second { result.1 ≡ cipher b.now.keys x }
    ensures third { result.2 ≡ cipher b.now.keys y }
{
    let mut p = a.enter(x);
    let mut q = b.enter(x);
    let mut r = b.enter(y);
    for i in 0..9 {
        (p, q, r) = (
            a.whole_round(i, p),
            b.whole_round(i, q),
            b.whole_round(i, r),
        );
    }
    (a.last_round(p), b.last_round(q), b.last_round(r))
}

/// x deciphered under a, and x and y enciphered under b, side by side.
pub fn decipher_three(
    a: &Schedule,
    b: &Schedule,
    x: [u8; 16],
    y: [u8; 16],
) -> ([u8; 16], [u8; 16], [u8; 16])
    ensures first { result.0 ≡ inv_cipher a.now.keys x }
    ensures second { result.1 ≡ cipher b.now.keys x }
    ensures third { result.2 ≡ cipher b.now.keys y }
{
    let mut p = a.undo_last_round(x);
    let mut q = b.enter(x);
    let mut r = b.enter(y);
    for i in 0..9 {
        (p, q, r) = (
            a.undo_whole_round(i, p),
            b.whole_round(i, q),
            b.whole_round(i, r),
        );
    }
    (a.leave_undone(p), b.last_round(q), b.last_round(r))
}

/// Both forms permute the blocks under every schedule, and the deciphering forms undo them.
pub fn ciphers_stands() -> u8
    ensures ten { CipherLaw }
    ensures four { Cipher4Law }
{
    0
}

/// Every key expands to a schedule, every value of `Schedule` holds one, and so the laws hold under
/// every key.
pub fn schedules_stands() -> u8
    ensures expands { ExpansionLaw }
    ensures holds { (s : Schedule) → IsSchedule s.keys }
    ensures ten { AesLaw }
    ensures four { Aes4Law }
{
    0
}
