//! What suites are made of, as definitions with their laws: numbers as blocks, rules of filling,
//! header digests, and the functions of a suite that is made of one block cipher, in the form of
//! the shaft suites and in that of the POET v2.0 submission.
//!
//! A function whose name ends in `_stands` does nothing: its contract is a theorem, and the crate
//! is refused without the proof.
#![tactic(auto)]

ghost use Rattle.forms.specs.Laws.{DoubleLaw, KeyedLaw, SubmittedLaw};

/// Doubling moves each coefficient one place up, and counts modulo the polynomial.
pub fn doubling_stands() -> u8
    ensures { DoubleLaw }
{
    0
}

/// A suite that is made of one block cipher is lawful, whatever the cipher and the rule of filling.
pub fn keyed_stands() -> u8
    ensures { KeyedLaw }
{
    0
}

/// So is a suite in the submission's form, whatever the cipher and the hash.
pub fn submitted_stands() -> u8
    ensures { SubmittedLaw }
{
    0
}
