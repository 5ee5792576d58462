//! Tests of what the console prints: the longest delivery, one byte more, no byte, by how many
//! writes, and a writer that takes no more.
#![tactic(auto)]

#[cfg(test)]
mod printed;
