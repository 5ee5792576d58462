//! Sealing and opening under POET v2.0, generic over the suite and with no heap.
//!
//! A session goes from a key place (`keys`) to a heading (`heading`), and from there to a sealing
//! or an opening (`body`). `whole` has the calls for whole buffers, which run one session from
//! beginning to end (`straight`). Below them are a suite's parts once the header is taken
//! (`engine`), the two ways through the rows (`rows`), the comparison of blocks (`blocks`) and the
//! checks (`checks`).
//!
//! A function whose name ends in `_stands` does nothing: its contract is a theorem, and the crate
//! is refused without the proof.
#![tactic(auto)]

ghost use Rattle.session.specs.Sessions.{HoldsLaw, WritesLaw};

mod blocks;
mod body;
mod checks;
mod engine;
mod heading;
mod keys;
mod rows;
mod straight;
mod whole;

pub use body::{Opening, Sealing, Session};
pub use heading::Heading;
pub use keys::KeyPlace;
pub use rows::Way;
pub use whole::{open, seal};

/// What a body call writes are the whole blocks that a byte follows, and it holds 1 to 16 bytes
/// back, if there are any.
pub fn writes_stands() -> u8
    ensures writes { WritesLaw }
    ensures holds { HoldsLaw }
{
    0
}
