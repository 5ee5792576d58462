//! Every listed suite but the mirror against another program about the ends of blocks: headers of
//! none to many blocks and a byte more or less, messages about many blocks, and the longest one.
//! Each is opened again, and all but the longest are refused once a bit is turned.
//!
//! The expected values are those that `tools/seals.py` prints, which shares no code with the
//! crates.
use crate::chains::{KEY, key_from, pattern, sealed};
use crate::samples::{holds, refused, same};
use delivery::open;
use fault::SessionFault;
use std::alloc::Global;
use std::process::Abort;
use std::test::Fail;

const HEADERS: [usize; 14] = [0, 1, 15, 16, 17, 31, 32, 33, 47, 48, 49, 255, 256, 257];

const MESSAGES: [usize; 9] = [2047, 2048, 2049, 4095, 4096, 4097, 16383, 16384, 16385];

// The keys at the end.
struct Expected {
    suite: u8,
    headers: [u8; 16],
    messages: [u8; 16],
    longest: [u8; 16],
}

const SHAFT: Expected = Expected {
    suite: 1,
    headers: *b"\x71\x47\x63\x86\x99\xc4\xaf\x11\x83\x67\x3e\x8d\xb8\xd5\x41\x08",
    messages: *b"\x4d\x8c\xa0\xac\x6a\x00\x64\xb1\x1f\x77\x41\x0e\x5c\x13\xb4\xa2",
    longest: *b"\xea\x1c\xe2\x19\x59\x51\x5a\x44\x8e\x75\xdc\x30\x93\xa7\x90\x13",
};

// With no header, suite 5 seals as suite 1 does.
const EXPECTED: [Expected; 5] = [
    SHAFT,
    Expected {
        suite: 2,
        headers: *b"\xde\x72\x60\x33\x45\xf3\x71\x36\x59\xa0\x8e\x1b\x35\x94\xf7\x3b",
        messages: *b"\x2d\x09\x82\x5e\x71\x51\xb1\x8e\x57\xd5\xf4\x4e\x43\xa8\x3c\x93",
        longest: *b"\x92\x17\x96\xd4\x75\xa4\x69\x76\xae\x11\xa6\x6f\x53\xd6\x85\x02",
    },
    Expected {
        suite: 3,
        headers: *b"\x96\x04\xa1\x17\x6a\x5e\x89\x5e\xa0\x71\x80\x8a\x81\x47\xdf\x12",
        messages: *b"\x75\xc6\xeb\x05\x19\x46\xa2\x33\x1e\xbc\x04\xba\x3e\x70\x58\x14",
        longest: *b"\xbf\xbb\xa3\xda\xf3\x8a\x2b\xd3\x04\x28\x6b\x49\xfc\xfa\x26\xea",
    },
    Expected {
        suite: 5,
        headers: *b"\x02\x05\xa2\x77\x69\x1d\x9d\x68\xb0\x0b\x4a\xe0\xf3\xb2\x23\x41",
        ..SHAFT
    },
    Expected {
        suite: 6,
        headers: *b"\x71\xb3\x59\xd9\x97\x90\xa4\x95\xe8\xb9\x2a\xe3\x4a\xb7\x62\x6e",
        messages: *b"\x12\x55\x16\x87\x98\x1b\xd1\xf0\xb0\x1c\xb4\x44\x48\x6a\x76\xed",
        longest: *b"\x26\x15\x2f\xa2\xd6\x3e\x6c\x53\x07\xa9\x89\xd3\xe6\x50\xfc\x05",
    },
];

// A seal with one bit of its tag turned is refused, and leaves zeros.
fn forged(
    rt: &impl Abort,
    heap: Global,
    suite: u8,
    key: &[u8; 16],
    header: &[u8],
    ciphertext: &[u8],
    mut tag: [u8; 16],
) -> Result<(), Fail> {
    tag[15] ^= 1;
    let len = ciphertext.len();
    let mut opened = vec![in heap; 0xee; len]?;
    let answer = open(suite, key, header, ciphertext, &tag, &mut opened);
    holds(
        rt,
        answer == refused(SessionFault::Forged, len),
        "a false tag was taken",
        &len,
    );
    for b in &opened {
        holds(rt, *b == 0, "left after a refusal", &len);
    }
    Ok(())
}

// The key after a header and a message of these lengths, sealed, opened and refused.
fn next_key(
    rt: &impl Abort,
    heap: Global,
    suite: u8,
    key: &[u8; 16],
    lens: (usize, usize),
    start: usize,
) -> Result<[u8; 16], Fail> {
    let header = pattern(heap, lens.0, 7, start)?;
    let message = pattern(heap, lens.1, 11, start)?;
    let (ciphertext, tag) = sealed(rt, heap, suite, key, &header, &message)?;
    forged(rt, heap, suite, key, &header, &ciphertext, tag)?;
    Ok(key_from(&ciphertext, tag))
}

// The key after one seal under each of the headers.
fn after_headers(rt: &impl Abort, heap: Global, suite: u8) -> Result<[u8; 16], Fail> {
    let mut key = KEY;
    for len in HEADERS {
        key = next_key(rt, heap, suite, &key, (len, 21), len)?;
    }
    Ok(key)
}

// The key after one seal of each of the messages.
fn after_messages(rt: &impl Abort, heap: Global, suite: u8) -> Result<[u8; 16], Fail> {
    let mut key = KEY;
    for len in MESSAGES {
        key = next_key(rt, heap, suite, &key, (0, len), len)?;
    }
    Ok(key)
}

#[test]
fn headers(rt: HostRuntime) -> Result<(), Fail> {
    for expected in &EXPECTED {
        let suite = expected.suite;
        let key = after_headers(&rt, rt.alloc(), suite)?;
        same(
            &rt,
            &key,
            &expected.headers,
            "other key under suite",
            &suite,
        );
    }
    Ok(())
}

#[test]
fn messages(rt: HostRuntime) -> Result<(), Fail> {
    for expected in &EXPECTED {
        let suite = expected.suite;
        let key = after_messages(&rt, rt.alloc(), suite)?;
        same(
            &rt,
            &key,
            &expected.messages,
            "other key under suite",
            &suite,
        );
    }
    Ok(())
}

// One seal of the longest message.
fn longest(rt: &impl Abort, heap: Global, expected: &Expected) -> Result<(), Fail> {
    let suite = expected.suite;
    let message = pattern(heap, 1048576, 11, 0)?;
    let (ciphertext, tag) = sealed(rt, heap, suite, &KEY, &[], &message)?;
    let key = key_from(&ciphertext, tag);
    same(rt, &key, &expected.longest, "other key under suite", &suite);
    Ok(())
}

#[test]
fn longest_shaft(rt: HostRuntime) -> Result<(), Fail> {
    longest(&rt, rt.alloc(), &SHAFT)
}

#[test]
fn longest_four_rounds(rt: HostRuntime) -> Result<(), Fail> {
    let [_, four, ..] = &EXPECTED;
    longest(&rt, rt.alloc(), four)
}

#[test]
fn longest_ten_rounds(rt: HostRuntime) -> Result<(), Fail> {
    let [_, _, ten, ..] = &EXPECTED;
    longest(&rt, rt.alloc(), ten)
}

#[test]
fn longest_speck(rt: HostRuntime) -> Result<(), Fail> {
    let [.., speck] = &EXPECTED;
    longest(&rt, rt.alloc(), speck)
}
