//! A suite of one's own, which no list has, and what every call promises under it: each promise
//! follows from that of the call, by the call alone, since the suite shows its laws once, where it
//! is supplied.
#![tactic(auto)]

pub mod flipped;
pub mod promised;
#[cfg(test)]
mod trials;
