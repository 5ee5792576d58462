//! Every refusal of the calls for whole buffers, at its limit and one past it, in its order, and
//! what the buffers then hold.
use crate::samples::{holds, kept, refused};
use fault::{KeyFault, Placed, SessionFault};
use session::{open, seal};
use std::alloc::Global;
use std::process::Abort;
use std::test::Fail;
use suites::Mirror;

const KEY_LENGTH: SessionFault = SessionFault::Key(KeyFault::Length);

// The lengths of a key, a header, a body and the room for it.
type Lens = [usize; 4];

// What sealing accepts, at its limits.
const SEALS: [Lens; 3] = [
    [16, 65536, 1, 1],
    [16, 0, 1048576, 1048576],
    [16, 0, 17, 17],
];

// What sealing refuses, with the fault and the place. Where several checks fail, as in the last
// rows, the first one is answered.
const SEAL_REFUSALS: [(Lens, SessionFault, usize); 9] = [
    ([15, 0, 1, 1], KEY_LENGTH, 15),
    ([17, 0, 1, 1], KEY_LENGTH, 17),
    ([16, 65537, 1, 1], SessionFault::Header, 0),
    ([16, 0, 1048577, 1048577], SessionFault::Body, 0),
    ([16, 0, 17, 16], SessionFault::Room, 0),
    ([16, 0, 0, 0], SessionFault::Empty, 0),
    ([0, 65537, 1048577, 0], KEY_LENGTH, 0),
    ([16, 65537, 1048577, 0], SessionFault::Header, 0),
    ([16, 0, 1048577, 0], SessionFault::Body, 0),
];

// What opening refuses, with the tag too.
const OPEN_REFUSALS: [(Lens, &'static [u8], SessionFault, usize); 8] = [
    ([15, 0, 1, 1], &[0x55; 16], KEY_LENGTH, 15),
    ([16, 65537, 1, 1], &[0x55; 16], SessionFault::Header, 0),
    (
        [16, 0, 1048577, 1048577],
        &[0x55; 16],
        SessionFault::Body,
        0,
    ),
    ([16, 0, 17, 16], &[0x55; 16], SessionFault::Room, 0),
    ([16, 0, 0, 4], &[0x55; 12], SessionFault::Empty, 0),
    ([16, 0, 1, 4], &[0x55; 12], SessionFault::Tag, 0),
    ([16, 0, 1, 4], &[0x55; 17], SessionFault::Tag, 0),
    ([16, 0, 17, 20], &[0x55; 16], SessionFault::Forged, 17),
];

// What a call answers for these lengths. A refusal alters nothing, but that a forgery leaves zeros
// in the place of the message.
fn answers(
    rt: &impl Abort,
    heap: Global,
    [key, header, body, room]: Lens,
    tag: Option<&[u8]>,
    expected: Result<usize, Placed<SessionFault>>,
    case: usize,
) -> Result<(), Fail> {
    let key = vec![in heap; 0x2a; key]?;
    let header = vec![in heap; 1; header]?;
    let body = vec![in heap; 2; body]?;
    let mut out = vec![in heap; 0xee; room]?;
    let answer = match tag {
        None => sealing(rt, &key, &header, &body, &mut out, case),
        Some(tag) => open::<Mirror>(&key, &header, &body, tag, &mut out),
    };
    holds(rt, answer == expected, "other answer", &case);
    match expected {
        Ok(_) => {}
        Err(e) if e.fault == SessionFault::Forged => kept(rt, &out, e.place, &case),
        Err(_) => kept(rt, &out, 0, &case),
    }
    Ok(())
}

fn sealing(
    rt: &impl Abort,
    key: &[u8],
    header: &[u8],
    body: &[u8],
    out: &mut [u8],
    case: usize,
) -> Result<usize, Placed<SessionFault>> {
    let mut tag = [0x55; 16];
    let answer = seal::<Mirror>(key, header, body, out, &mut tag);
    let is_kept = answer.is_ok() || tag == [0x55; 16];
    holds(rt, is_kept, "a refusal wrote the tag", &case);
    answer
}

#[test]
fn sealing_accepts(rt: HostRuntime) -> Result<(), Fail> {
    for (i, lens) in SEALS.iter().enumerate() {
        let [_, _, body, _] = *lens;
        answers(&rt, rt.alloc(), *lens, None, Ok(body), i)?;
    }
    Ok(())
}

#[test]
fn sealing_refuses(rt: HostRuntime) -> Result<(), Fail> {
    for (i, (lens, fault, place)) in SEAL_REFUSALS.iter().enumerate() {
        answers(&rt, rt.alloc(), *lens, None, refused(*fault, *place), i)?;
    }
    Ok(())
}

#[test]
fn opening_refuses(rt: HostRuntime) -> Result<(), Fail> {
    for (i, (lens, tag, fault, place)) in OPEN_REFUSALS.iter().enumerate() {
        let expected = refused(*fault, *place);
        answers(&rt, rt.alloc(), *lens, Some(*tag), expected, i)?;
    }
    Ok(())
}
