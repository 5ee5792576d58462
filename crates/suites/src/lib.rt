//! The delivered suites, and the list of them.
//!
//! A suite that is made of one block cipher is a line of definition: a `OneCipher` or a
//! `Submission` of a cipher or a hash (`ciphers`, `speck_cipher`), and its line in the list. One of
//! another form implements `Suite`.
//!
//! A function whose name ends in `_stands` does nothing: its contract is a theorem, and the crate
//! is refused without the proof.
#![tactic(auto)]

mod ciphers;
pub mod listed;
mod mirror;
mod numbers;
mod one_cipher;
mod shaft;
mod speck_cipher;
mod submission;

pub use ciphers::{Aes128, Beside, BlockCipher, FourRounds, KeyedHash};
pub use listed::Listed;
pub use mirror::{Identity, Mirror, Reversal};
pub use numbers::{big_endian, coded, little_endian};
pub use one_cipher::OneCipher;
pub use shaft::{Shaft, ShaftPadded, ShaftSpeck};
pub use speck_cipher::Speck;
pub use submission::{Keys, PoetAesFour, PoetAesTen, Submission};
