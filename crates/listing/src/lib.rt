//! The listing: one entry of a parts sheet as a line of text.
//!
//! `need` has the yearly need of a part, `fields` puts the fields of a line one by one, and `lines`
//! puts the whole line into a caller's buffer.
#![tactic(auto)]

mod fields;
mod lines;
mod need;

pub use lines::{LINE_LIMIT, line};
pub use need::{nearest_stands, yearly_need};
