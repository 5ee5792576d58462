//! Opening a delivered sheet and reading it, in one call: any list of next and field calls on a new
//! reader, and what each answered. Nothing is put on the heap, so that the call cannot give up.
//!
//! `script` has the calls with their replies, and what an opening comes to. `opening` opens a
//! delivery, under the suite with its number or under any suite, and answers the calls; its
//! contracts are the whole promise about sheets.
#![tactic(auto)]

mod answers;
mod opening;
mod script;

pub use answers::answer;
pub use opening::{play, play_as};
pub use script::{Ask, Call, Played, Reply};
