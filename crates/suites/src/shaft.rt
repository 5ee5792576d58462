//! The shaft suites: one block cipher under two keys, both made from the delivered one.
use crate::ciphers::Aes128;
use crate::listed::{SHAFT, SHAFT_PADDED, SHAFT_SPECK};
use crate::one_cipher::OneCipher;
use crate::speck_cipher::Speck;
use digests::{AlwaysPadded, WholeStays};

/// Suite 1: a header of whole blocks stays as it is.
pub type Shaft = OneCipher<Aes128, WholeStays, SHAFT>;

/// Suite 5: as suite 1, but every header is padded, so that no two are filled alike.
pub type ShaftPadded = OneCipher<Aes128, AlwaysPadded, SHAFT_PADDED>;

/// Suite 6: as suite 5, but over Speck128/128 in place of AES-128.
pub type ShaftSpeck = OneCipher<Speck, AlwaysPadded, SHAFT_SPECK>;
