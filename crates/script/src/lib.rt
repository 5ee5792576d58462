//! Written sessions: plays any legal list of session calls, and keeps what came of it.
//!
//! A session is written as its header calls and a course (`course`); `play` (`playing`) makes these
//! calls one after another (`calls`) and answers what was taken, answered and handed out
//! (`played`). The record is kept on the heap, which a session itself never uses.
#![tactic(auto)]

mod calls;
mod course;
mod played;
mod playing;

pub use course::{Course, Stretch};
pub use played::{Answer, End, Played};
pub use playing::play;
