//! Known figures, as one theorem that follows from the definitions.
//!
//! `figures_stands` does nothing: its contract is the theorem, and the crate is refused without the
//! proof.
#![tactic(auto)]

ghost use Rattle.figures.specs.Figures.{Figures};

/// The figures are what the definitions say.
pub fn figures_stands() -> u8
    ensures { Figures }
{
    0
}
