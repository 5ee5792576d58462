//! What the tests share: two entries, what a refusal is, and whether a buffer is as it was filled.
use fault::{Placed, SheetFault};
use sheet::Entry;
use std::alloc::Global;
use std::fmt::Display;
use std::process::Abort;
use std::test::Fail;

pub(crate) const SHORTEST: Entry<&'static [u8]> = Entry {
    code: b"DOORSH01",
    parent: None,
    count: 2,
    landing: None,
    months: None,
    drawing: None,
};

pub(crate) const LONGEST: Entry<&'static [u8]> = Entry {
    code: b"ROLLER77",
    parent: Some(b"DOORSH01"),
    count: 9999,
    landing: Some(-5),
    months: Some(600),
    drawing: Some(b"A/1234567890/BCDEFGHIJKLMNOPQRST"),
};

pub(crate) fn refused(fault: SheetFault, place: usize) -> Result<usize, Placed<SheetFault>> {
    Err(Placed { fault, place })
}

// What holds of a case. An assertion with a message is proved anew wherever it is written, and a
// call of this one is cheaper.
pub(crate) fn holds(rt: &impl Abort, fact: bool, otherwise: &str, case: &impl Display) {
    assert!(rt; fact, "{otherwise}: {case}");
}

// The bytes outside a part are as they were filled.
pub(crate) fn kept(rt: &impl Abort, buf: &[u8], from: usize, to: usize, case: &impl Display) {
    for (i, b) in buf.iter().enumerate() {
        if i < from || i >= to {
            holds(rt, *b == 0xee, "altered outside the part", case);
        }
    }
}

// A call that puts an entry, or its line, at a place refuses it for its values, where it has no
// room too.
pub(crate) fn refuses<F: Fn(Entry<&[u8]>, &mut [u8], usize) -> Result<usize, Placed<SheetFault>>>(
    rt: &impl Abort,
    heap: Global,
    put: F,
    e: Entry<&[u8]>,
    size: usize,
    case: &impl Display,
) -> Result<(), Fail>
    requires { F.IsAlwaysCallable put }
{
    let mut buf = vec![in heap; 0xee; size]?;
    for place in [3, size, size.saturating_add(1)] {
        let answer = put(e, &mut buf, place);
        holds(
            rt,
            answer == refused(SheetFault::Value, place),
            "not refused for its values",
            case,
        );
    }
    kept(rt, &buf, 0, 0, case);
    Ok(())
}

// One whose bytes end at this place is refused for its room, one byte short and past the buffer.
pub(crate) fn lacks_room<
    F: Fn(Entry<&[u8]>, &mut [u8], usize) -> Result<usize, Placed<SheetFault>>,
>(
    rt: &impl Abort,
    heap: Global,
    put: F,
    e: Entry<&[u8]>,
    end: usize,
    case: &impl Display,
) -> Result<(), Fail>
    requires { F.IsAlwaysCallable put }
{
    assert!(rt; 3 < end, "{case}");
    let mut buf = vec![in heap; 0xee; end - 1]?;
    for place in [3, end] {
        let answer = put(e, &mut buf, place);
        holds(
            rt,
            answer == refused(SheetFault::Room, place),
            "not refused for its room",
            case,
        );
    }
    kept(rt, &buf, 0, 0, case);
    Ok(())
}
