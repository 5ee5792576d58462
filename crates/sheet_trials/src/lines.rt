//! Lines of entries: the shortest, the longest and some between, what they refuse, and the yearly
//! need.
use crate::samples::{LONGEST, SHORTEST, holds, kept, lacks_room, refuses};
use listing::{line, yearly_need};
use sheet::Entry;
use std::alloc::Global;
use std::fmt::Display;
use std::process::Abort;
use std::test::Fail;

// The line of an entry at place 3, in exact room and with more, which is left as it was.
fn shows(
    rt: &impl Abort,
    heap: Global,
    e: Entry<&[u8]>,
    text: &[u8],
    case: &impl Display,
) -> Result<(), Fail> {
    let mut shown = vec![in heap; 0xee; 3]?;
    shown.extend_from_slice(text)?;
    let end = shown.len();
    let mut exact = vec![in heap; 0xee; end]?;
    holds(
        rt,
        line(e, &mut exact, 3) == Ok(end),
        "other end in exact room",
        case,
    );
    holds(rt, exact.as_slice() == shown.as_slice(), "other line", case);
    let mut buf = [0xee; 75];
    holds(rt, line(e, &mut buf, 3) == Ok(end), "other end", case);
    kept(rt, &buf, 3, end, case);
    lacks_room(
        rt,
        heap,
        |e: Entry<&[u8]>, buf: &mut [u8], at: usize| line(e, buf, at),
        e,
        end,
        case,
    )
}

const LINES: [(Entry<&'static [u8]>, &'static [u8], &'static str); 5] = [
    (SHORTEST, b"DOORSH01;-;2;-;-;-;-\n", "the shortest entry"),
    (
        LONGEST,
        b"ROLLER77;DOORSH01;9999;-5;600;200;A/1234567890/BCDEFGHIJKLMNOPQRST\n",
        "the longest entry",
    ),
    (
        Entry {
            months: Some(1),
            ..LONGEST
        },
        b"ROLLER77;DOORSH01;9999;-5;1;119988;A/1234567890/BCDEFGHIJKLMNOPQRST\n",
        "as long as a line can be",
    ),
    (
        Entry {
            landing: Some(0),
            months: Some(25),
            count: 1,
            ..SHORTEST
        },
        b"DOORSH01;-;1;0;25;0;-\n",
        "a need of 0",
    ),
    (
        Entry {
            landing: Some(40),
            parent: Some(b"CABIN001"),
            ..SHORTEST
        },
        b"DOORSH01;CABIN001;2;40;-;-;-\n",
        "a parent and a landing",
    ),
];

#[test]
fn lines(rt: HostRuntime) -> Result<(), Fail> {
    for (e, text, case) in LINES {
        shows(&rt, rt.alloc(), e, text, &case)?;
    }
    Ok(())
}

const OUTSIDE: [(Entry<&'static [u8]>, &'static str); 3] = [
    (
        Entry {
            count: 10000,
            ..LONGEST
        },
        "count",
    ),
    (
        Entry {
            months: Some(0),
            ..LONGEST
        },
        "months",
    ),
    (
        Entry {
            drawing: Some(b""),
            ..LONGEST
        },
        "drawing",
    ),
];

#[test]
fn values_before_room(rt: HostRuntime) -> Result<(), Fail> {
    for (e, case) in OUTSIDE {
        refuses(
            &rt,
            rt.alloc(),
            |e: Entry<&[u8]>, buf: &mut [u8], at: usize| line(e, buf, at),
            e,
            75,
            &case,
        )?;
    }
    Ok(())
}

#[test]
fn needs(rt: HostRuntime) {
    // a half goes upwards: 12 / 24, 36 / 24, 12 / 8, 60 / 40, 12 * 25 / 600, 12 * 75 / 600
    let cases = [
        (1, 24, 1),
        (3, 24, 2),
        (1, 8, 2),
        (5, 40, 2),
        (25, 600, 1),
        (75, 600, 2),
        (24, 600, 0),
        (26, 600, 1),
        (1, 25, 0),
        (1, 23, 1),
        (1, 1, 12),
        (2, 7, 3),
        (9999, 12, 9999),
        (9999, 600, 200),
        (9999, 1, 119988),
    ];
    for (count, months, need) in cases {
        assert_eq!(rt;
            yearly_need(count, months),
            Some(need),
            "{count} in {months}"
        );
    }
    assert_eq!(rt; yearly_need(1, 0), None);
}
