//! Up to N bytes in a row, filled from the front, with no heap.
#![tactic(auto)]

ghost use Rattle.std.specs.Prelude.{◌≡◌, ℕ, ◌-◌, ◌≤◌, List, [], ◌∷◌, ◌++◌, length, take, ◌<◌};
ghost use Rattle.std.specs.Prelude.{min, IsOk, MatchOption, Ok, Some};
ghost use Rattle.std.specs.Io.{WritesAtMost};
ghost use Rattle.std.specs.Io.KnownBytes.{Keeps, WriteAppends};

use std::io;
use std::io::Write;
use std::marker::Model;

/// N bytes of memory, of which the first were put in.
#[derive(Drop)]
pub struct Buffer<const N: usize> {
    bytes: [u8; N],
    len: usize,
}

// Clauses see the bytes that were put in.
impl<const N: usize> Model for Buffer<N> {
    ghost Value = { List ℕ };

    ghost view = { λ b. take b.len b.bytes };

    ghost invariant = { λ b. b.len ≤ N };
}

impl<const N: usize> Buffer<N> {
    /// With nothing in it.
    pub fn new() -> Self
        ensures { result ≡ [] }
    {
        Buffer {
            bytes: [0; N],
            len: 0,
        }
    }

    /// The bytes that were put in, in order.
    pub fn as_slice(&self) -> &[u8]
        ensures bytes { result.now ≡ self.now }
        ensures within { length result.now ≤ N }
    {
        &self.bytes[..self.len]
    }

    /// All N bytes, if so many were put in.
    pub fn full(&self) -> Option<[u8; N]>
        ensures { MatchOption result (length self.now < N)
            (λ b. (b ≡ self.now) × (length self.now ≡ N)) }
    {
        if self.len < N {
            return None;
        }
        Some(self.bytes)
    }

    /// Puts one byte behind the others, if there is room.
    pub fn push(&mut self, b: u8)
        ensures { self.new ≡ take N (self.old ++ b ∷ []) }
    {
        let at = self.len;
        if at == N {
            return;
        }
        self.bytes[at] = b;
        self.len = at + 1;
    }

    /// Puts bytes behind the others, as many as there is room for.
    pub fn extend(&mut self, s: &[u8])
        ensures { self.new ≡ take N (self.old ++ s.now) }
    {
        let n = s.len().min(N - self.len);
        let end = self.len + n;
        let bytes = &mut self.bytes[..];
        bytes[self.len..end].copy_from_slice(&s[..n]);
        self.len = end;
    }
}

// A text is made in a buffer by `write!`, which fails where it has no room.
impl<const N: usize> Write for Buffer<N> {
    ghost contents = { λ b. Some b };

    /// Puts bytes behind the others, as many as there is room for, and answers how many.
    fn write(&mut self, s: &[u8]) -> io::Result<usize>
        ensures bound { WritesAtMost result s.now }
        ensures bytes { WriteAppends (Some self.old) (Some self.new) result s.now }
        ensures count { result ≡ Ok (min (length s.now) (N - length self.old)) }
    {
        let n = s.len().min(N - self.as_slice().len());
        self.extend(&s[..n]);
        Ok(n)
    }

    /// Does nothing, since there is nowhere to send the bytes on to.
    fn flush(&mut self) -> io::Result<()>
        ensures bytes { Keeps (Some self.old) (Some self.new) }
        ensures unchanged { self.new ≡ self.old }
        ensures ok { IsOk result }
    {
        Ok(())
    }
}
