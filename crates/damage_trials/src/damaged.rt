//! One bit of the header, of the ciphertext or of the tag turned, and what an opening then does.
use delivery::{open, seal};
use fault::{Placed, SessionFault};
use std::alloc::Global;
use std::fmt::Display;
use std::process::Abort;
use std::test::Fail;

const KEY: [u8; 16] = [0x2a; 16];

const SUITES: [u8; 5] = [1, 2, 3, 5, 6];

// The longest message.
const LONGEST: usize = 1048576;

// The opening is refused with 9 at the ciphertext's length, and leaves zeros.
fn forged(
    rt: &impl Abort,
    heap: Global,
    suite: u8,
    header: &[u8],
    ciphertext: &[u8],
    tag: &[u8],
    case: &impl Display,
) -> Result<(), Fail> {
    let mut out = vec![in heap; 0xee; ciphertext.len()]?;
    assert_eq!(rt;
        open(suite, &KEY, header, ciphertext, tag, &mut out),
        Err(Placed {
            fault: SessionFault::Forged,
            place: ciphertext.len(),
        }),
        "{case}"
    );
    assert!(rt;
        out.as_slice().iter().all(|b| *b == 0),
        "bytes left: {case}"
    );
    Ok(())
}

// The bytes with the top bit of the one at a place turned.
fn turned(heap: Global, bytes: &[u8], at: usize) -> Result<Vec<u8>, Fail> {
    let mut damaged = bytes.to_vec(heap)?;
    if let Some(b) = damaged.get_mut(at) {
        *b ^= 0x80;
    }
    Ok(damaged)
}

// A message sealed under a header is opened; then each part is damaged in turn.
fn damage_shows(
    rt: &impl Abort,
    heap: Global,
    suite: u8,
    header: &[u8],
    message: &[u8],
) -> Result<(), Fail> {
    let len = message.len();
    let mut ciphertext = vec![in heap; 0; len]?;
    let mut tag = [0; 16];
    seal(suite, &KEY, header, message, &mut ciphertext, &mut tag)?;
    let mut out = vec![in heap; 0; len]?;
    open(suite, &KEY, header, &ciphertext, &tag, &mut out)?;
    assert!(rt; out.as_slice() == message, "opened otherwise");
    let other = turned(heap, header, header.len() / 2)?;
    forged(rt, heap, suite, &other, &ciphertext, &tag, &"the header")?;
    let other = turned(heap, &ciphertext, len / 2)?;
    forged(rt, heap, suite, header, &other, &tag, &"the ciphertext")?;
    for (at, case) in [(0, "the tag's front"), (15, "the tag's end")] {
        let other = turned(heap, &tag, at)?;
        forged(rt, heap, suite, header, &ciphertext, &other, &case)?;
    }
    Ok(())
}

#[test]
fn every_length(rt: HostRuntime) -> Result<(), Fail> {
    let message = [0x5c; 100];
    let header = [0x21; 40];
    for suite in SUITES {
        for len in 1..101usize {
            damage_shows(
                &rt,
                rt.alloc(),
                suite,
                &header[0..1 + len % 40],
                &message[0..len],
            )?;
        }
    }
    Ok(())
}

#[test]
fn longest(rt: HostRuntime) -> Result<(), Fail> {
    let message = vec![in rt.alloc(); 0x5c; LONGEST]?;
    for suite in SUITES {
        damage_shows(&rt, rt.alloc(), suite, b"lift 7", &message)?;
    }
    Ok(())
}
