//! Refusals: an enum for each layer, a struct that adds the place (`kinds`), and how they are shown
//! (`shown`).
//!
//! A fault of a lower layer passes through a higher one unaltered, inside the case that carries it.
#![tactic(auto)]

mod kinds;
mod shown;

pub use kinds::{ConsoleFault, KeyFault, Layer, Placed, SessionFault, SheetFault};
pub use shown::Fault;
