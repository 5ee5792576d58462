//! Suite 1, told by its number: seals by another program, both ways, and every byte of one seal
//! damaged.
use crate::samples::{holds, kept, refused, same, wrote};
use crate::vectors::{VECTORS, Vector};
use delivery::{open, seal};
use fault::SessionFault;
use std::process::Abort;
use std::test::Fail;

const KEY: [u8; 16] = *b"sixteen old keys";

const HEADER: [u8; 21] = *b"lift 7, parts sheet 1";

const MESSAGE: [u8; 37] = *b"two door rollers, one guide shoe, oil";

#[test]
fn vectors(rt: HostRuntime) -> Result<(), Fail> {
    for (i, v) in VECTORS.iter().enumerate() {
        seals(&rt, v, i)?;
        opens(&rt, v, i)?;
    }
    Ok(())
}

fn seals(rt: &impl Abort, v: &Vector, case: usize) -> Result<(), Fail> {
    let mut out = [0xee; 50];
    let mut tag = [0xee; 16];
    let n = seal(1, &v.key, v.header, v.message, &mut out, &mut tag)?;
    wrote(rt, n, &out, v.ciphertext, &case);
    same(rt, &tag, &v.tag, "other tag", &case);
    Ok(())
}

fn opens(rt: &impl Abort, v: &Vector, case: usize) -> Result<(), Fail> {
    let mut out = [0xee; 50];
    let n = open(1, &v.key, v.header, v.ciphertext, &v.tag, &mut out)?;
    wrote(rt, n, &out, v.message, &case);
    Ok(())
}

// A header, its ciphertext and its tag, end to end, are refused as forged, which leaves zeros where
// the message would have been and nothing else altered.
fn forged(rt: &impl Abort, parts: &[u8; 74], place: usize) {
    let mut out = [0xee; 40];
    let answer = open(
        1,
        &KEY,
        &parts[0..21],
        &parts[21..58],
        &parts[58..74],
        &mut out,
    );
    holds(
        rt,
        answer == refused(SessionFault::Forged, 37),
        "taken with a byte damaged",
        &place,
    );
    kept(rt, &out, 37, &place);
}

// The header, its ciphertext and its tag, end to end.
fn sealed(rt: &impl Abort) -> Result<[u8; 74], Fail> {
    let mut ciphertext = [0; 37];
    let mut tag = [0; 16];
    let n = seal(1, &KEY, &HEADER, &MESSAGE, &mut ciphertext, &mut tag)?;
    holds(rt, n == 37, "other length", &n);
    let mut out = [0; 37];
    let n = open(1, &KEY, &HEADER, &ciphertext, &tag, &mut out)?;
    wrote(rt, n, &out, &MESSAGE, &"undamaged");
    let mut parts = [0; 74];
    parts[0..21].copy_from_slice(&HEADER);
    parts[21..58].copy_from_slice(&ciphertext);
    parts[58..74].copy_from_slice(&tag);
    Ok(parts)
}

// One bit turned, in each of the bytes in turn.
#[test]
fn damage_is_refused(rt: HostRuntime) -> Result<(), Fail> {
    let parts = sealed(&rt)?;
    for i in 0..74usize {
        let mut damaged = parts;
        damaged[i] ^= 1;
        forged(&rt, &damaged, i);
    }
    Ok(())
}
