//! The calls that are told a suite by its number: for whole messages (`message`), and for sheets
//! (`sheets`), which has a form for any suite too.
#![tactic(auto)]

mod message;
mod sheets;

pub use message::{open, seal};
pub use sheets::{open_sheet, open_sheet_as, told};
