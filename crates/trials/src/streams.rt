//! Sessions: one message cut in many ways gives one result, a session goes on after a refusal, and
//! every call answers by its rule.
ghost use Rattle.std.specs.Prelude.{◌≤◌};

use crate::caller::seal_once;
use crate::samples::{holds, placed, played, refused, same, stretches};
use fault::{Placed, SessionFault};
use script::{Answer, Course, End, Played, Stretch};
use session::seal;
use std::alloc::Global;
use std::fmt::Display;
use std::process::Abort;
use std::test::Fail;
use suite::Suite;
use suites::{Mirror, ShaftPadded};

const MESSAGE: [u8; 40] = [7; 40];

const HEADER: [u8; 21] = [9; 21];

const KEY: [u8; 16] = [0x2a; 16];

// The seal of the message, by the call for whole buffers.
fn whole<S: Suite>(header: &[u8]) -> Result<([u8; 40], [u8; 16]), Fail> {
    let mut out = [0; 40];
    let mut tag = [0; 16];
    seal::<S>(&KEY, header, &MESSAGE, &mut out, &mut tag)?;
    Ok((out, tag))
}

// The message sealed in stretches of `size`.
fn seals_cut<S: Suite>(
    rt: &impl Abort,
    heap: Global,
    size: usize,
    header: &[u8],
    ciphertext: &[u8; 40],
    tag: &[u8; 16],
) -> Result<(), Fail>
    requires { 1 ≤ size }
{
    let headers = stretches(heap, header, size)?;
    let bodies = stretches(heap, &MESSAGE, size)?;
    let course = Course::Seal {
        bodies: &bodies,
        finish: true,
    };
    let (log, end) = played::<S>(heap, &KEY, &headers, course)?;
    same(rt, &log.header, header, "other header taken", &size);
    same(rt, &log.body, &MESSAGE, "other body taken", &size);
    same(rt, &log.out, ciphertext, "other ciphertext", &size);
    let is_tag = matches!(end, End::Sealed { last: _, tag: t } if t == *tag);
    holds(rt, is_tag, "other tag", &size);
    Ok(())
}

// The ciphertext opened in stretches of `size`.
fn opens_cut(
    rt: &impl Abort,
    heap: Global,
    size: usize,
    ciphertext: &[u8; 40],
    tag: &[u8; 16],
) -> Result<(), Fail>
    requires { 1 ≤ size }
{
    let headers = stretches(heap, &HEADER, size)?;
    let bodies = stretches(heap, ciphertext, size)?;
    let course = Course::Open {
        bodies: &bodies,
        tag: Some(tag),
    };
    let (log, _) = played::<Mirror>(heap, &KEY, &headers, course)?;
    same(rt, &log.out, &MESSAGE, "other message", &size);
    holds(rt, ends(&log, Ok(8)), "other finish", &size);
    Ok(())
}

// The last call was a finish, and answered this.
fn ends(log: &Played, answer: Result<usize, Placed<SessionFault>>) -> bool {
    log.answers.as_slice().last() == Some(&Answer::Finish(answer))
}

#[test]
fn cuts_give_one_seal(rt: HostRuntime) -> Result<(), Fail> {
    let (ciphertext, tag) = whole::<Mirror>(&HEADER)?;
    for size in 1..42usize {
        seals_cut::<Mirror>(&rt, rt.alloc(), size, &HEADER, &ciphertext, &tag)?;
    }
    Ok(())
}

// Whole blocks, behind which the rule of suite 5 has a further one.
#[test]
fn cuts_of_whole_blocks(rt: HostRuntime) -> Result<(), Fail> {
    let header = [9; 32];
    let (ciphertext, tag) = whole::<ShaftPadded>(&header)?;
    for size in 1..34usize {
        seals_cut::<ShaftPadded>(&rt, rt.alloc(), size, &header, &ciphertext, &tag)?;
    }
    Ok(())
}

#[test]
fn cuts_open_to_one_message(rt: HostRuntime) -> Result<(), Fail> {
    let (ciphertext, tag) = whole::<Mirror>(&HEADER)?;
    for size in 1..42usize {
        opens_cut(&rt, rt.alloc(), size, &ciphertext, &tag)?;
    }
    Ok(())
}

// The answer of a body call that wrote so many bytes and holds so many.
fn given(written: usize, held: usize) -> Answer {
    Answer::Body(Ok((written, held)))
}

fn stretch<'a>(bytes: &'a [u8], room: usize) -> Stretch<'a> {
    Stretch { bytes, room }
}

// What body calls answer: a block is given only once a byte follows it.
#[test]
fn pairs(rt: HostRuntime) -> Result<(), Fail> {
    let bodies = [
        stretch(&[7; 16], 64),
        stretch(&[7; 1], 64),
        stretch(&[7; 32], 64),
    ];
    let course = Course::Seal {
        bodies: &bodies,
        finish: false,
    };
    let (log, end) = played::<Mirror>(rt.alloc(), &KEY, &[], course)?;
    let answers = [given(0, 16), given(16, 1), given(32, 1)];
    let case = "body calls";
    holds(
        &rt,
        log.answers.as_slice() == answers.as_slice(),
        "other answers",
        &case,
    );
    holds(&rt, log.out.len() == 48, "other length", &case);
    holds(&rt, end == End::Unfinished, "other end", &case);
    Ok(())
}

// Header calls of 20 bytes, of these, and of one byte.
fn around<'a>(long: &'a [u8]) -> [Stretch<'a>; 3] {
    [stretch(&[9; 20], 0), stretch(long, 0), stretch(&[9; 1], 0)]
}

// Calls that are refused leave the session as it was.
#[test]
fn goes_on_after_refusals(rt: HostRuntime) -> Result<(), Fail> {
    let heap = rt.alloc();
    let long = vec![in heap; 0; 65537]?;
    let headers = around(&long);
    let bodies = [
        stretch(&[7; 17], 15),
        stretch(&[7; 39], 32),
        stretch(&[7; 1], 0),
    ];
    let course = Course::Seal {
        bodies: &bodies,
        finish: true,
    };
    let (log, _) = played::<Mirror>(heap, &KEY, &headers, course)?;
    let answers = [
        Answer::Header(Ok(())),
        Answer::Header(Err(Placed {
            fault: SessionFault::Header,
            place: 20,
        })),
        Answer::Header(Ok(())),
        Answer::Body(Err(Placed {
            fault: SessionFault::Room,
            place: 0,
        })),
        given(32, 7),
        given(0, 8),
        Answer::Finish(Ok(8)),
    ];
    let (ciphertext, _) = whole::<Mirror>(&HEADER)?;
    let case = "calls with refusals";
    holds(
        &rt,
        log.answers.as_slice() == answers.as_slice(),
        "other answers",
        &case,
    );
    same(&rt, &log.out, &ciphertext, "other ciphertext", &case);
    Ok(())
}

// A finish refuses no body, a tag of another length, and a false tag, with zeros in its places.
#[test]
fn refuses_no_body(rt: HostRuntime) -> Result<(), Fail> {
    let course = Course::Seal {
        bodies: &[],
        finish: true,
    };
    let (log, end) = played::<Mirror>(rt.alloc(), &KEY, &[], course)?;
    let zeros = End::Sealed {
        last: [0; 16],
        tag: [0; 16],
    };
    let case = "no body";
    holds(
        &rt,
        ends(&log, refused(SessionFault::Empty, 0)),
        "other finish",
        &case,
    );
    holds(&rt, end == zeros, "other end", &case);
    Ok(())
}

const TAGS: [(&'static [u8], SessionFault, &'static str); 2] = [
    (&[7; 12], SessionFault::Tag, "a short tag"),
    (&[7; 16], SessionFault::Forged, "a false tag"),
];

// An opening of forty bytes is refused, and what was given out stays.
#[test]
fn refuses_tags(rt: HostRuntime) -> Result<(), Fail> {
    for (tag, fault, case) in TAGS {
        refuses(&rt, rt.alloc(), tag, fault, &case)?;
    }
    Ok(())
}

fn refuses(
    rt: &impl Abort,
    heap: Global,
    tag: &[u8],
    fault: SessionFault,
    case: &impl Display,
) -> Result<(), Fail> {
    let bodies = [stretch(&MESSAGE, 64)];
    let course = Course::Open {
        bodies: &bodies,
        tag: Some(tag),
    };
    let (log, end) = played::<Mirror>(heap, &KEY, &[], course)?;
    holds(rt, ends(&log, refused(fault, 40)), "other finish", case);
    holds(rt, log.out.len() == 32, "what was given out is gone", case);
    holds(rt, end == End::Opened { last: [0; 16] }, "other end", case);
    Ok(())
}

#[test]
fn one_stretch(rt: HostRuntime) -> Result<(), Fail> {
    let place = placed(&KEY)?;
    let (ciphertext, tag) = whole::<Mirror>(&HEADER)?;
    let mut out = [0; 40];
    let mut last = [0; 16];
    let mut other = [0; 16];
    let lens = seal_once::<Mirror>(&place, &HEADER, &MESSAGE, &mut out, &mut last, &mut other)?;
    let case = "one stretch";
    holds(&rt, lens == (32, 8), "other lengths", &case);
    same(
        &rt,
        &out[0..32],
        &ciphertext[0..32],
        "other ciphertext",
        &case,
    );
    same(
        &rt,
        &last[0..8],
        &ciphertext[32..40],
        "other last bytes",
        &case,
    );
    same(&rt, &other, &tag, "other tag", &case);
    Ok(())
}
