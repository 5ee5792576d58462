//! What the tests share: what holds of a case, refusals, bytes as a buffer was filled, and sessions
//! in stretches.
ghost use Rattle.std.specs.Prelude.{◌≤◌};

use fault::{Placed, SessionFault};
use script::{Course, End, Played, Stretch, play};
use session::KeyPlace;
use std::alloc::{AllocError, Global};
use std::fmt::Display;
use std::process::Abort;
use std::test::Fail;
use suite::Suite;

// What holds of a case. An assertion with a message is proved anew wherever it is written, and a
// call of this one is cheaper.
pub(crate) fn holds(rt: &impl Abort, fact: bool, otherwise: &str, case: &impl Display) {
    assert!(rt; fact, "{otherwise}: {case}");
}

// A call of the case gave these bytes.
pub(crate) fn same(
    rt: &impl Abort,
    bytes: &[u8],
    expected: &[u8],
    otherwise: &str,
    case: &impl Display,
) {
    holds(rt, bytes == expected, otherwise, case);
}

pub(crate) fn refused(fault: SessionFault, place: usize) -> Result<usize, Placed<SessionFault>> {
    Err(Placed { fault, place })
}

// A buffer starts with so many zeros, and holds what it was filled with after them.
pub(crate) fn kept(rt: &impl Abort, bytes: &[u8], zeros: usize, case: &impl Display) {
    for (i, b) in bytes.iter().enumerate() {
        let held = if i < zeros { 0 } else { 0xee };
        holds(rt, *b == held, "other bytes outside what was written", case);
    }
}

// A call that answered `n` wrote these bytes to the front of a buffer, and nothing after them.
pub(crate) fn wrote(rt: &impl Abort, n: usize, out: &[u8], bytes: &[u8], case: &impl Display) {
    holds(rt, n == bytes.len(), "other length", case);
    assert!(rt; n <= out.len());
    same(rt, &out[0..n], bytes, "other bytes", case);
    kept(rt, &out[n..], 0, case);
}

// `bytes` in stretches of `size`, each with room enough.
pub(crate) fn stretches<'a>(
    heap: Global,
    bytes: &'a [u8],
    size: usize,
) -> Result<Vec<Stretch<'a>>, AllocError>
    requires { 1 ≤ size }
{
    let mut all = Vec::new(heap);
    for piece in bytes.chunks(size) {
        all.push(Stretch {
            bytes: piece,
            room: 64,
        })?;
    }
    Ok(all)
}

pub(crate) fn placed(key: &[u8; 16]) -> Result<KeyPlace, Fail> {
    let mut place = KeyPlace::new();
    place.fill(key)?;
    Ok(place)
}

// Plays a session under this key.
pub(crate) fn played<S: Suite>(
    heap: Global,
    key: &[u8; 16],
    headers: &[Stretch<'_>],
    course: Course<'_>,
) -> Result<(Played, End), Fail> {
    let place = placed(key)?;
    Ok(play::<S>(heap, &place, headers, course)?)
}
