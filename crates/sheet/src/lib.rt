//! The parts sheet: entries end to end, each a map of two bytes and then the fields whose bits are
//! set.
//!
//! `table` has a row for each bit, which writing and reading both use; `entry` what an entry holds;
//! `forms` the tests of its values. `writing` writes one entry or a whole list into a buffer, and
//! `reader` answers the entries of a sheet one by one, and a field of the one last answered.
//! `whole` tests a whole sheet. Below `reader` are the fields one by one (`parts`).
#![tactic(auto)]

mod entry;
mod forms;
mod map;
mod parts;
mod reader;
mod table;
pub mod whole;
mod writing;

pub use entry::{Entry, Field, Kind};
pub use forms::is_good;
pub use reader::Reader;
pub use writing::{fields, put, write, write_all, writing_stands};
