//! POET v2.0 as definitions and laws, over functions of which only their laws are known.
//!
//! A function whose name ends in `_stands` does nothing: its contract is a theorem, and the crate
//! is refused without the proof.
#![tactic(auto)]

ghost use Rattle.poet.specs.Laws.{ComputingLaw, LawfulSome, OnlyLaw, OpeningLaw, OpeningPrefix};
ghost use Rattle.poet.specs.Laws.{PiecesLaw, PrefixLaw, SealLaw, SealingPrefix, TagLaw};

/// A theorem: a message within the limits has one seal; what the definitions compute is that seal,
/// and nothing else is; its ciphertext is as long as the message, and its tag has sixteen bytes.
pub fn computing_stands() -> u8
    ensures one { SealLaw }
    ensures computing { ComputingLaw }
    ensures lengths { TagLaw }
{
    0
}

/// A theorem: a ciphertext and a tag are the seal of one message at most; opening accepts exactly
/// what some message seals to, and computes that message.
pub fn opening_stands() -> u8
    ensures only { OnlyLaw }
    ensures accepts { OpeningLaw }
{
    0
}

/// A theorem: the first blocks on one side are the same exactly when those on the other side are.
pub fn prefix_stands() -> u8
    ensures rows { PrefixLaw }
    ensures sealing { SealingPrefix }
    ensures opening { OpeningPrefix }
{
    0
}

/// A theorem: bytes that come in pieces of any size go through the same rows.
pub fn pieces_stands() -> u8
    ensures { PiecesLaw }
{
    0
}

/// A theorem: some functions are lawful, so that the laws speak of something.
pub fn lawful_stands() -> u8
    ensures { LawfulSome }
{
    0
}
