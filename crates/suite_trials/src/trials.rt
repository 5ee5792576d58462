//! One sheet sealed under the suite, opened and read.
use crate::promised::{open, open_and_read, open_sheet, play_reader, seal};
use reading::{Ask, Call, Reply};
use std::process::Abort;
use std::test::Fail;

const KEY: [u8; 16] = [0x2a; 16];

// The code DOORSH01, and the count 2.
const SHEET: [u8; 12] = *b"\x00\x05DOORSH01\x00\x02";

#[test]
fn seals_opens_and_reads(rt: HostRuntime) -> Result<(), Fail> {
    let mut sealed = [0; 12];
    let mut tag = [0; 16];
    assert_eq!(rt; seal(&KEY, b"lift 7", &SHEET, &mut sealed, &mut tag)?, 12);
    assert!(rt; sealed != SHEET, "the message in clear");
    let mut out = [0; 12];
    assert_eq!(rt; open(&KEY, b"lift 7", &sealed, &tag, &mut out)?, 12);
    assert_eq!(rt; out, SHEET);
    assert_eq!(rt; open_sheet(&KEY, b"lift 7", &sealed, &tag, &mut out)?, 1);
    let next = Call {
        ask: Ask::Next,
        reply: None,
    };
    let mut calls = [next, next];
    let played = play_reader(&KEY, b"lift 7", &sealed, &tag, &mut out, &mut calls);
    assert_eq!(rt; played.outcome, Ok(1));
    let [first, second] = calls;
    assert!(rt; matches!(first.reply, Some(Reply::Next(Ok(Some(_))))));
    assert!(rt; matches!(second.reply, Some(Reply::Next(Ok(None)))));
    let mut kept = [0; 12];
    assert_eq!(rt;
        open_and_read(&KEY, b"lift 7", &sealed, &tag, &mut kept)?,
        1
    );
    assert_eq!(rt; kept, SHEET);
    tag[0] ^= 1;
    assert!(rt; open_sheet(&KEY, b"lift 7", &sealed, &tag, &mut out).is_err());
    Ok(())
}
