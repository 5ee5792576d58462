//! The report on one delivery, from its bytes to the text that is printed: the lines of its list,
//! or its refusal.
//!
//! `list` puts the lines into a caller's array, `print` takes a writer, and `run` a reader too.
//! `lines` has the lines of a sheet, `refusals` the line of a refusal. Nothing is put on the heap.
#![tactic(auto)]

mod lines;
mod printing;
mod refusals;

pub use lines::LIST_LIMIT;
pub use printing::{list, print, printed_stands, run};
