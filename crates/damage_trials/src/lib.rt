//! Tests that a damaged seal is refused: at every message length from 1 to 100, and at the longest,
//! under each listed suite but the mirror, which protects nothing.
#![tactic(auto)]

#[cfg(test)]
mod damaged;
