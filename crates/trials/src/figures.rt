//! Figures that the mirror suite must give under the empty header.
use crate::samples::{same, wrote};
use session::{open, seal};
use std::test::Fail;
use suite::{ChainingHash, HeaderDigest, Permutation, Suite};
use suites::Mirror;

// The key of all figures; the mirror suite does not use it.
const KEY: [u8; 16] = [0x2a; 16];

// One message of at most 17 bytes, and its seal.
struct Figure {
    message: &'static [u8],
    ciphertext: &'static [u8],
    tag: [u8; 16],
}

const FIGURES: [Figure; 3] = [
    Figure {
        message: &[0x41],
        ciphertext: &[0x88],
        tag: [0, 0, 0, 0, 0, 0, 0, 0, 0, 0, 0, 0, 0, 1, 0xc8, 0x80],
    },
    Figure {
        message: &[0; 16],
        ciphertext: &[0, 0, 0, 0, 0, 0, 0, 0, 0, 0, 0, 0, 0, 0, 0, 1],
        tag: [0x80, 0, 0, 0, 0, 0, 0, 0, 0, 0, 0, 0, 0, 0, 0, 0x80],
    },
    Figure {
        message: &[0; 17],
        ciphertext: &[0x80, 0, 0, 0, 0, 0, 0, 0, 0, 0, 0, 0, 0, 0, 0, 0x81, 0x88],
        tag: [0, 0, 0, 0, 0, 0, 0, 0, 0, 0, 0, 0, 0, 1, 0x88, 0x80],
    },
];

#[test]
fn digest_of_nothing(rt: HostRuntime) {
    let tau = Mirror::set_up(KEY).digest.finish();
    let expected = [1, 0, 0, 0, 0, 0, 0, 0, 0, 0, 0, 0, 0, 0, 0, 0x81];
    same(&rt, &tau, &expected, "other digest", &"of nothing");
}

#[test]
fn seals(rt: HostRuntime) -> Result<(), Fail> {
    for (i, figure) in FIGURES.iter().enumerate() {
        let mut out = [0xee; 20];
        let mut tag = [0xee; 16];
        let n = seal::<Mirror>(&KEY, &[], figure.message, &mut out, &mut tag)?;
        wrote(&rt, n, &out, figure.ciphertext, &i);
        same(&rt, &tag, &figure.tag, "other tag", &i);
    }
    Ok(())
}

#[test]
fn opens(rt: HostRuntime) -> Result<(), Fail> {
    for (i, figure) in FIGURES.iter().enumerate() {
        let mut out = [0xee; 20];
        let n = open::<Mirror>(&KEY, &[], figure.ciphertext, &figure.tag, &mut out)?;
        wrote(&rt, n, &out, figure.message, &i);
    }
    Ok(())
}
