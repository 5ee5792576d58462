//! Every listed suite but the mirror against another program at many lengths: messages of 1 to 100
//! bytes under headers of 0 to 66, each sealed under a key that comes of all that was sealed
//! before, and opened again.
//!
//! The expected values are those that `tools/seals.py` prints, which shares no code with the
//! crates.
use crate::samples::{holds, same};
use delivery::{open, seal};
use std::alloc::{AllocError, Global};
use std::process::Abort;
use std::test::Fail;

// The key of the first seal.
pub(crate) const KEY: [u8; 16] = [0, 1, 2, 3, 4, 5, 6, 7, 8, 9, 10, 11, 12, 13, 14, 15];

// A suite, and the key after a hundred seals.
const LAST_KEYS: [(u8, [u8; 16]); 5] = [
    (
        1,
        *b"\xf4\x06\x8e\x22\xe8\x26\x1b\x77\x18\x25\x25\x76\x08\xea\xef\x07",
    ),
    (
        2,
        *b"\x9b\x33\x91\x0b\x5a\xc6\x2c\x37\xd4\x49\xa3\x3f\xdb\x97\x0c\x53",
    ),
    (
        3,
        *b"\x56\x74\x82\x5d\xc7\xe1\x67\x28\xc7\xcf\x1f\x44\x94\xc0\x3e\x2e",
    ),
    (
        5,
        *b"\x4d\x27\x38\xe9\x0d\x48\xb5\xdb\x28\x8c\x3e\xf5\x3e\xfe\x75\x8c",
    ),
    (
        6,
        *b"\xff\xdc\xd4\xf8\xf5\xbb\x9d\xb1\x20\xba\x3a\xd0\xf5\x5e\xb1\x9f",
    ),
];

// Bytes that go up by `step`.
pub(crate) fn pattern(
    heap: Global,
    len: usize,
    step: u8,
    start: usize,
) -> Result<Vec<u8>, AllocError> {
    let mut bytes = Vec::new(heap);
    let mut b = (start % 256) as u8;
    for _ in 0..len {
        bytes.push(b)?;
        b = b.wrapping_add(step);
    }
    Ok(bytes)
}

// Seals and opens again. Answers the ciphertext and the tag.
pub(crate) fn sealed(
    rt: &impl Abort,
    heap: Global,
    suite: u8,
    key: &[u8; 16],
    header: &[u8],
    message: &[u8],
) -> Result<(Vec<u8>, [u8; 16]), Fail> {
    let len = message.len();
    let mut ciphertext = vec![in heap; 0; len]?;
    let mut tag = [0; 16];
    let n = seal(suite, key, header, message, &mut ciphertext, &mut tag)?;
    holds(rt, n == len, "other length", &len);
    let mut opened = vec![in heap; 0; len]?;
    open(suite, key, header, &ciphertext, &tag, &mut opened)?;
    same(rt, &opened, message, "other message", &len);
    Ok((ciphertext, tag))
}

// The tag, to which the ciphertext is added, is the next key.
pub(crate) fn key_from(ciphertext: &[u8], mut tag: [u8; 16]) -> [u8; 16] {
    for (i, b) in ciphertext.iter().enumerate() {
        tag[i % 16] ^= *b;
    }
    tag
}

fn last_key(rt: &impl Abort, heap: Global, suite: u8) -> Result<[u8; 16], Fail> {
    let mut key = KEY;
    for n in 1..101usize {
        let header = pattern(heap, 5 * n % 67, 7, n)?;
        let message = pattern(heap, n, 11, 3 * n)?;
        let (ciphertext, tag) = sealed(rt, heap, suite, &key, &header, &message)?;
        key = key_from(&ciphertext, tag);
    }
    Ok(key)
}

#[test]
fn chains(rt: HostRuntime) -> Result<(), Fail> {
    for (suite, expected) in LAST_KEYS {
        let key = last_key(&rt, rt.alloc(), suite)?;
        same(&rt, &key, &expected, "other key under suite", &suite);
    }
    Ok(())
}
