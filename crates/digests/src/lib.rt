//! Header digests: how a header is filled up to whole blocks, and two digests of whole blocks, one
//! chained and one masked, over any permutation and any chaining hash.
//!
//! A digest of headers is a `Filled`: a digest of whole blocks, and a rule of filling. Another rule
//! is an impl of `Filling`; another digest of blocks is an impl of `BlockDigest`.
//!
//! A function whose name ends in `_stands` does nothing: its contract is a theorem, and the crate
//! is refused without the proof.
#![tactic(auto)]

mod chained;
mod doubling;
mod filled;
mod filling;
mod masked;

pub use chained::Chained;
pub use doubling::double;
pub use filled::{BlockDigest, Filled};
pub use filling::{AlwaysPadded, Filling, WholeStays};
pub use masked::Masked;
