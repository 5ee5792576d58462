//! Tests of played sessions: that the largest does not give up for want of memory, which no
//! contract can say, and that one which gives up says so and nothing else.
#![tactic(auto)]

#[cfg(test)]
mod largest;
#[cfg(test)]
mod short;
