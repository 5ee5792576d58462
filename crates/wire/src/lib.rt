//! Deliveries as bytes: the parts of one, and how it is parsed.
#![tactic(auto)]

mod parsing;

pub use parsing::{CIPHERTEXT_LIMIT, Delivery, HEADER_LIMIT, INPUT_LIMIT, parse};
