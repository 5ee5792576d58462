//! The two ways through the rows: sealing goes with E from X to Y, and opening with D from Y to X.
ghost use Rattle.std.specs.Prelude.{◌≡◌};
ghost use Rattle.session.specs.Directions.{Direction, opening, picks, sealing, turns};
ghost use Rattle.session.specs.Steps.{lanes};

use suite::{Permutation, Suite};

/// Outside this crate nothing can name this trait, so nothing there implements `Way`.
pub trait Sealed {}

/// A way through the rows: what a sealing and an opening do differently. It is public, so that a
/// function can take a session of either way, and sealed: no third way has a meaning.
pub trait Way: Sealed {
    ghost way: { Direction };

    // The permutation's function that a row uses.
    fn pass<P: Permutation>(p: &P, x: [u8; 16]) -> [u8; 16]
        ensures { result ≡ picks way (P.Permutation.enc p.now) (P.Permutation.dec p.now) x };

    // What a row wants of the blocks x and y: x passed and hashed, and y hashed.
    fn ahead<S: Suite>(
        p: &S::Permutation,
        h: &S::ChainingHash,
        x: [u8; 16],
        y: [u8; 16],
    ) -> ([u8; 16], [u8; 16], [u8; 16])
        ensures first { result.0 ≡ picks way
            (S.Permutation.Permutation.enc p.now) (S.Permutation.Permutation.dec p.now) x }
        ensures second { result.1 ≡ S.ChainingHash.ChainingHash.chain h.now x }
        ensures third { result.2 ≡ S.ChainingHash.ChainingHash.chain h.now y };

    // The lanes that begin at X_0 and Y_0.
    fn lanes(x: [u8; 16], y: [u8; 16]) -> Lanes
        ensures taking { result.taking ≡ (turns way (lanes x y)).x }
        ensures giving { result.giving ≡ (turns way (lanes x y)).y };
}

/// The way of a sealing.
pub struct Seal;

/// The way of an opening.
pub struct Open;

impl Sealed for Seal {}

impl Sealed for Open {}

impl Way for Seal {
    ghost way = { sealing };

    fn pass<P: Permutation>(p: &P, x: [u8; 16]) -> [u8; 16] {
        p.encrypt(x)
    }

    fn ahead<S: Suite>(
        p: &S::Permutation,
        h: &S::ChainingHash,
        x: [u8; 16],
        y: [u8; 16],
    ) -> ([u8; 16], [u8; 16], [u8; 16]) {
        S::encrypt_and_hash(p, h, x, y)
    }

    fn lanes(x: [u8; 16], y: [u8; 16]) -> Lanes {
        Lanes {
            taking: x,
            giving: y,
        }
    }
}

impl Way for Open {
    ghost way = { opening };

    fn pass<P: Permutation>(p: &P, x: [u8; 16]) -> [u8; 16] {
        p.decrypt(x)
    }

    fn ahead<S: Suite>(
        p: &S::Permutation,
        h: &S::ChainingHash,
        x: [u8; 16],
        y: [u8; 16],
    ) -> ([u8; 16], [u8; 16], [u8; 16]) {
        S::decrypt_and_hash(p, h, x, y)
    }

    fn lanes(x: [u8; 16], y: [u8; 16]) -> Lanes {
        Lanes {
            taking: y,
            giving: x,
        }
    }
}

/// The last block of each sequence: blocks come in at `taking` and go out at `giving`.
#[derive(Clone, Copy)]
pub struct Lanes {
    pub(crate) taking: [u8; 16],
    pub(crate) giving: [u8; 16],
}
