//! The forms of two suites that no list has, with their laws: one with no cipher, and those of the
//! POET v2.0 submission with the older digest, by which its published vectors were made.
//!
//! A function whose name ends in `_stands` does nothing: its contract is a theorem, and the crate
//! is refused without the proof.
#![tactic(auto)]

ghost use Rattle.trial_forms.specs.Laws.{FlippedLaw, OlderLaw};

/// The suite with no cipher is lawful.
pub fn flipped_stands() -> u8
    ensures { FlippedLaw }
{
    0
}

/// A suite with the older digest is lawful, whatever the cipher and the hash.
pub fn older_stands() -> u8
    ensures { OlderLaw }
{
    0
}
