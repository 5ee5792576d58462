//! Numbers of suites that are not listed are refused before every other check, and nothing is
//! altered.
use crate::samples::{holds, refused, same};
use anyhow::anyhow;
use delivery::{open, seal};
use fault::{KeyFault, SessionFault};
use std::process::Abort;
use std::test::Fail;

const KEY: [u8; 16] = [0x2a; 16];

const TAG: [u8; 16] = [0x55; 16];

// A key, a body and a tag, and what they are.
const PARTS: [(&'static [u8], &'static [u8], &'static [u8], &'static str); 5] = [
    (&KEY, &[1, 2, 3, 4], &TAG, "whole parts"),
    (&[0x2a; 3], &[1, 2, 3, 4], &TAG, "a short key"),
    (&KEY, &[], &TAG, "no body"),
    (&KEY, &[1, 2, 3, 4, 5], &TAG, "little room"),
    (&KEY, &[1, 2, 3, 4], &[0x55; 12], "a short tag"),
];

// Both calls under this number, with this key, body and tag, and room for four bytes.
fn both_refuse(rt: &impl Abort, suite: u8, key: &[u8], body: &[u8], tag: &[u8], what: &str) {
    let refusal = refused(SessionFault::Key(KeyFault::Suite), usize::from(suite));
    let mut out = [0xee; 4];
    let mut place = TAG;
    let answer = seal(suite, key, &[], body, &mut out, &mut place);
    holds(rt, answer == refusal, what, &suite);
    same(rt, &place, &TAG, "a refusal wrote the tag", &suite);
    let answer = open(suite, key, &[], body, tag, &mut out);
    holds(rt, answer == refusal, what, &suite);
    same(rt, &out, &[0xee; 4], "a refusal wrote", &suite);
}

#[test]
fn unlisted_numbers(rt: HostRuntime) -> Result<(), Fail> {
    for suite in [0, 7, 9, 255] {
        for (key, body, tag, what) in PARTS {
            both_refuse(&rt, suite, key, body, tag, what);
        }
    }
    Ok(())
}

// A seal under this number, where a refusal goes up as an error of any kind.
fn sealed_under(suite: u8) -> anyhow::Result<usize> {
    let mut out = [0; 4];
    let mut tag = TAG;
    Ok(seal(suite, &KEY, &[], &[1, 2, 3, 4], &mut out, &mut tag)?)
}

/// A refusal is an error with a text, which `?` hands on.
#[test]
fn goes_up_as_an_error(rt: HostRuntime) -> anyhow::Result<()> {
    assert_eq!(rt; sealed_under(1)?, 4);
    let Err(error) = sealed_under(9) else {
        return Err(anyhow!("an unlisted suite sealed"));
    };
    let text = format!(in rt.alloc(); "{error}")?;
    assert!(rt; text.as_str() == "refused 2 by the key layer at 9");
    Ok(())
}
