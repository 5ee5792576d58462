//! Writing of entries: their bytes, how many fields they have, each bound of a value and one past
//! it, and what a buffer then holds.
use crate::samples::{LONGEST, SHORTEST, holds, kept, lacks_room, refused, refuses};
use crate::vectors::SHEET;
use fault::SheetFault;
use sheet::whole::test;
use sheet::{Entry, Reader, fields, write, write_all};
use std::alloc::Global;
use std::fmt::Display;
use std::process::Abort;
use std::test::Fail;

// An entry is written at place 3, alters nothing else, and is read back.
fn accepts(
    rt: &impl Abort,
    heap: Global,
    e: Entry<&[u8]>,
    case: &impl Display,
) -> Result<(), Fail> {
    let mut buf = [0xee; 64];
    let end = write(e, &mut buf, 3)?;
    assert!(rt; 3 < end && end <= 64, "{case}");
    kept(rt, &buf, 3, end, case);
    holds(rt, test(&buf[3..end]) == Ok(1), "no sheet", case);
    let read = Reader::new(&buf[3..end]).next()?.ok_or("no entry")?;
    holds(rt, read == e, "read otherwise", case);
    let mut exact = vec![in heap; 0; end]?;
    holds(
        rt,
        write(e, &mut exact, 3) == Ok(end),
        "other end in exact room",
        case,
    );
    lacks_room(
        rt,
        heap,
        |e: Entry<&[u8]>, buf: &mut [u8], at: usize| write(e, buf, at),
        e,
        end,
        case,
    )
}

fn tried(
    rt: &impl Abort,
    heap: Global,
    e: Entry<&[u8]>,
    good: bool,
    case: &impl Display,
) -> Result<(), Fail> {
    if good {
        accepts(rt, heap, e, case)
    } else {
        refuses(
            rt,
            heap,
            |e: Entry<&[u8]>, buf: &mut [u8], at: usize| write(e, buf, at),
            e,
            64,
            case,
        )
    }
}

#[test]
fn bytes_of_entries(rt: HostRuntime) {
    let mut buf = [0xee; 68];
    assert_eq!(rt; write(SHORTEST, &mut buf, 0), Ok(12));
    assert!(rt; &buf[0..12] == b"\x00\x05DOORSH01\x00\x02".as_slice());
    assert_eq!(rt; write(LONGEST, &mut buf, 12), Ok(68));
    let sheet = SHEET.as_slice();
    assert!(rt; buf.as_slice() == &sheet[..68]);
    assert_eq!(rt; fields(SHORTEST), 2);
    assert_eq!(rt; fields(LONGEST), 6);
}

#[test]
fn numbers(rt: HostRuntime) -> Result<(), Fail> {
    let heap = rt.alloc();
    for (count, good) in [(0, false), (1, true), (9999, true), (10000, false)] {
        tried(
            &rt,
            heap,
            Entry { count, ..SHORTEST },
            good,
            &format_args!("count {count}"),
        )?;
    }
    for (z, good) in [(-6, false), (-5, true), (40, true), (41, false)] {
        let e = Entry {
            landing: Some(z),
            ..SHORTEST
        };
        tried(&rt, heap, e, good, &format_args!("landing {z}"))?;
    }
    for (n, good) in [(0, false), (1, true), (600, true), (601, false)] {
        let e = Entry {
            months: Some(n),
            ..SHORTEST
        };
        tried(&rt, heap, e, good, &format_args!("months {n}"))?;
    }
    Ok(())
}

const CODES: [(&'static [u8], bool); 7] = [
    (b"DOORSH0", false),
    (b"DOORSH01", true),
    (b"DOORSH012", false),
    (b"AZ09AZ09", true),
    (b"DOORsH01", false),
    (b"DOOR/H01", false),
    (b"DOORSH0-", false),
];

const DRAWINGS: [(&'static [u8], bool); 7] = [
    (b"", false),
    (b"A", true),
    (b"/", true),
    (b"A/1234567890/BCDEFGHIJKLMNOPQRST", true),
    (b"A/1234567890/BCDEFGHIJKLMNOPQRSTU", false),
    (b"A/1b", false),
    (b"A 1", false),
];

#[test]
fn texts(rt: HostRuntime) -> Result<(), Fail> {
    let heap = rt.alloc();
    for (i, (s, good)) in CODES.into_iter().enumerate() {
        let e = Entry {
            code: s,
            ..SHORTEST
        };
        tried(&rt, heap, e, good, &format_args!("code {i}"))?;
        let e = Entry {
            parent: Some(s),
            ..SHORTEST
        };
        tried(&rt, heap, e, good, &format_args!("parent {i}"))?;
    }
    for (i, (s, good)) in DRAWINGS.into_iter().enumerate() {
        let e = Entry {
            drawing: Some(s),
            ..SHORTEST
        };
        tried(&rt, heap, e, good, &format_args!("drawing {i}"))?;
    }
    tried(&rt, heap, LONGEST, true, &"the longest")
}

const THREE: [Entry<&'static [u8]>; 3] = [
    SHORTEST,
    LONGEST,
    Entry {
        drawing: Some(b"A/1"),
        ..SHORTEST
    },
];

// A list written at once leaves the sheet that write calls end to end leave, or nothing.
#[test]
fn whole_lists(rt: HostRuntime) {
    let mut buf = [0xee; 90];
    assert_eq!(rt; write_all(&THREE, &mut buf), Ok(84));
    assert!(rt; &buf[0..84] == SHEET.as_slice(), "other sheet");
    kept(&rt, &buf, 0, 84, &"a list");
    let mut small = [0xee; 83];
    assert_eq!(rt;
        write_all(&THREE, &mut small),
        refused(SheetFault::Room, 68)
    );
    kept(&rt, &small, 0, 0, &"a list without room");
    let broken = [
        SHORTEST,
        Entry {
            count: 0,
            ..LONGEST
        },
        SHORTEST,
    ];
    assert_eq!(rt;
        write_all(&broken, &mut buf),
        refused(SheetFault::Value, 12)
    );
    assert!(rt; &buf[0..84] == SHEET.as_slice(), "a refusal wrote");
    assert_eq!(rt; write_all(&[], &mut buf), Ok(0));
}
