//! Reading of entries: field by field, several end to end, and every refusal, with its place and
//! what is answered after it.
use crate::samples::{LONGEST, SHORTEST, holds, refused};
use fault::SheetFault;
use sheet::whole::test;
use sheet::{Entry, Field, Kind, Reader, write};
use std::alloc::Global;
use std::fmt::Display;
use std::process::Abort;
use std::test::Fail;

const KINDS: [Kind; 6] = [
    Kind::Code,
    Kind::Parent,
    Kind::Count,
    Kind::Landing,
    Kind::Months,
    Kind::Drawing,
];

// Whether the reader answers this field as the entry has it.
fn answers(r: &Reader<'_>, kind: Kind, e: Entry<&[u8]>) -> bool {
    match (kind, r.field(kind)) {
        (Kind::Code, Some(Field::Code(s))) => s == e.code,
        (Kind::Parent, Some(Field::Parent(s))) => e.parent == Some(s),
        (Kind::Count, Some(Field::Count(n))) => n == e.count,
        (Kind::Landing, Some(Field::Landing(z))) => e.landing == Some(z),
        (Kind::Months, Some(Field::Months(n))) => e.months == Some(n),
        (Kind::Drawing, Some(Field::Drawing(s))) => e.drawing == Some(s),
        (Kind::Parent, None) => e.parent.is_none(),
        (Kind::Landing, None) => e.landing.is_none(),
        (Kind::Months, None) => e.months.is_none(),
        (Kind::Drawing, None) => e.drawing.is_none(),
        _ => false,
    }
}

// The reader speaks for this entry.
fn speaks_for(rt: &impl Abort, r: &Reader<'_>, e: Entry<&[u8]>, case: &impl Display) {
    for kind in KINDS {
        holds(rt, answers(r, kind, e), "other field", case);
    }
}

// No entry was answered yet.
fn is_silent(rt: &impl Abort, r: &Reader<'_>, case: &impl Display) {
    for kind in KINDS {
        holds(rt, r.field(kind).is_none(), "a field of no entry", case);
    }
}

// The following entry is this one.
fn reads(
    rt: &impl Abort,
    r: &mut Reader<'_>,
    e: Entry<&[u8]>,
    case: &impl Display,
) -> Result<(), Fail> {
    let read = r.next()?.ok_or("no entry")?;
    holds(rt, read == e, "other entry", case);
    speaks_for(rt, r, e, case);
    Ok(())
}

// The sheet has ended, and ends again.
fn has_ended(rt: &impl Abort, r: &mut Reader<'_>) -> Result<(), Fail> {
    for _ in 0..3 {
        assert!(rt; r.next()?.is_none(), "an entry behind the last");
    }
    Ok(())
}

#[test]
fn entries_end_to_end(rt: HostRuntime) -> Result<(), Fail> {
    let mut sheet = [0; 80];
    let second = write(SHORTEST, &mut sheet, 0)?;
    let third = write(LONGEST, &mut sheet, second)?;
    assert_eq!(rt; write(SHORTEST, &mut sheet, third), Ok(80));
    assert_eq!(rt; test(&sheet), Ok(3));
    let mut r = Reader::new(&sheet);
    is_silent(&rt, &r, &"before the first");
    reads(&rt, &mut r, SHORTEST, &"the first")?;
    reads(&rt, &mut r, LONGEST, &"the second")?;
    reads(&rt, &mut r, SHORTEST, &"the third")?;
    has_ended(&rt, &mut r)?;
    speaks_for(&rt, &r, SHORTEST, &"behind the third");
    Ok(())
}

#[test]
fn no_bytes(rt: HostRuntime) -> Result<(), Fail> {
    assert_eq!(rt; test(&[]), refused(SheetFault::Cut, 0));
    let mut r = Reader::new(&[]);
    has_ended(&rt, &mut r)?;
    is_silent(&rt, &r, &"no bytes");
    Ok(())
}

// The reader refuses the following entry, and refuses it again.
fn stops(
    rt: &impl Abort,
    r: &mut Reader<'_>,
    fault: SheetFault,
    place: usize,
    case: &impl Display,
) {
    for _ in 0..2 {
        let answer = match r.next() {
            Ok(_) => Ok(0),
            Err(e) => Err(e),
        };
        holds(rt, answer == refused(fault, place), "other refusal", case);
    }
}

// These bytes are refused, as a sheet of their own, and behind a sound entry.
fn refuses(
    rt: &impl Abort,
    heap: Global,
    bytes: &[u8],
    fault: SheetFault,
    case: &impl Display,
) -> Result<(), Fail> {
    holds(rt, test(bytes) == refused(fault, 0), "other refusal", case);
    let mut r = Reader::new(bytes);
    stops(rt, &mut r, fault, 0, case);
    is_silent(rt, &r, case);
    let mut sheet = vec![in heap; 0; 12]?;
    write(SHORTEST, &mut sheet, 0)?;
    sheet.extend_from_slice(bytes)?;
    holds(
        rt,
        test(&sheet) == refused(fault, 12),
        "other refusal at 12",
        case,
    );
    let mut r = Reader::new(&sheet);
    reads(rt, &mut r, SHORTEST, case)?;
    stops(rt, &mut r, fault, 12, case);
    speaks_for(rt, &r, SHORTEST, case);
    Ok(())
}

#[test]
fn cuts(rt: HostRuntime) -> Result<(), Fail> {
    let heap = rt.alloc();
    let mut bytes = [0; 56];
    assert_eq!(rt; write(LONGEST, &mut bytes, 0), Ok(56));
    for n in 1..56usize {
        refuses(
            &rt,
            heap,
            &bytes[..n],
            SheetFault::Cut,
            &format_args!("cut to {n} bytes"),
        )?;
    }
    Ok(())
}

const BROKEN: [(&'static [u8], SheetFault); 26] = [
    (b"\x00", SheetFault::Cut),
    (b"\x00\x45DOORSH01\x00\x02", SheetFault::UnknownBit),
    (b"\x80\x05DOORSH01\x00\x02", SheetFault::UnknownBit),
    (b"\x01\x05", SheetFault::UnknownBit),
    (b"\x00\x01DOORSH01", SheetFault::Missing),
    (b"\x00\x04\x00\x02", SheetFault::Missing),
    (b"\x00\x3a", SheetFault::Missing),
    (b"\x00\x00", SheetFault::Missing),
    // a bit that may not be set before one that is missing
    (b"\x00\x41DOORSH01", SheetFault::UnknownBit),
    (b"\x80\x00", SheetFault::UnknownBit),
    // values past their bounds
    (b"\x00\x05DOORSH01\x00\x00", SheetFault::Value),
    (b"\x00\x05DOORSH01\x27\x10", SheetFault::Value),
    (b"\x00\x05DOORsH01\x00\x02", SheetFault::Value),
    (b"\x00\x05DOOR/H01\x00\x02", SheetFault::Value),
    (b"\x00\x07ROLLER77DOOR/H01\x00\x02", SheetFault::Value),
    (b"\x00\x0dDOORSH01\x00\x02\xfa", SheetFault::Value),
    (b"\x00\x0dDOORSH01\x00\x02\x29", SheetFault::Value),
    (b"\x00\x15DOORSH01\x00\x02\x00\x00", SheetFault::Value),
    (b"\x00\x15DOORSH01\x00\x02\x02\x59", SheetFault::Value),
    (b"\x00\x25DOORSH01\x00\x02\x03A-1", SheetFault::Value),
    // a field's cut before its value, and its value before the cut of the next
    (b"\x00\x05DOORsH0", SheetFault::Cut),
    (b"\x00\x05DOORSH01\x27", SheetFault::Cut),
    (b"\x00\x25DOORSH01\x00\x02\x03-1", SheetFault::Cut),
    (b"\x00\x05DOORsH01\x00", SheetFault::Value),
    // the length of a drawing before its bytes
    (b"\x00\x25DOORSH01\x00\x02\x00", SheetFault::Value),
    (b"\x00\x25DOORSH01\x00\x02\x21A/1", SheetFault::Value),
];

#[test]
fn broken_entries(rt: HostRuntime) -> Result<(), Fail> {
    let heap = rt.alloc();
    for (i, (bytes, fault)) in BROKEN.into_iter().enumerate() {
        refuses(&rt, heap, bytes, fault, &format_args!("case {i}"))?;
    }
    Ok(())
}
