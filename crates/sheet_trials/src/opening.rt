//! Opening of delivered sheets: seals by another program, the largest sheet, every refusal and what
//! the buffer then holds, and damage.
use crate::samples::{SHORTEST, holds, refused};
use crate::vectors::{
    ENDS, FIFTEEN, FOUR_ROUNDS, KEY, LABEL, MIRROR, PADDED, SEALED, SHAFT, SHEET, SPECK, TEN_ROUNDS,
};
use delivery::{open_sheet, seal};
use fault::{Fault, KeyFault, SessionFault, SheetFault};
use sheet::{Entry, write};
use std::alloc::{AllocError, Global};
use std::fmt::Display;
use std::process::Abort;
use std::test::Fail;
use wire::Delivery;

// A delivery is opened to the sheet, and nothing is written past it.
fn opens(rt: &impl Abort, d: Delivery<'_>) {
    let mut out = [0xee; 90];
    assert_eq!(rt; open_sheet(d, &mut out), Ok(3));
    assert!(rt; &out[0..84] == SHEET.as_slice(), "other sheet");
    assert!(rt;
        &out[84..90] == [0xee; 6].as_slice(),
        "written past the sheet"
    );
}

#[test]
fn opens_sealed(rt: HostRuntime) {
    for d in SEALED {
        opens(&rt, d);
    }
}

// A label of fifteen bytes and the same with 80 behind it: one block under suite 1, and not under
// suite 5.
#[test]
fn label_that_ends_in_80(rt: HostRuntime) -> Result<(), Fail> {
    let marked = b"lift 7, sheet 1\x80";
    for suite in [1, 5] {
        opens(&rt, Delivery { suite, ..FIFTEEN });
    }
    let relabelled = Delivery {
        header: marked,
        ..FIFTEEN
    };
    opens(&rt, relabelled);
    let padded = Delivery {
        suite: 5,
        ..relabelled
    };
    forged(&rt, rt.alloc(), padded, &"80 behind the label")
}

// A sheet of one entry with no header.
#[test]
fn opens_without_header(rt: HostRuntime) {
    let d = Delivery {
        header: b"",
        ciphertext: b"\xe0\x00\x00\x01\x02\x00\x31\x30\x48\x53\x52\x4f",
        tag: b"\x4f\x44\x05\xe1\x80\x00\x00\x00\x00\x00\x00\x00\x00\x00\x00\x00",
        ..MIRROR
    };
    let mut out = [0xee; 12];
    assert_eq!(rt; open_sheet(d, &mut out), Ok(1));
    assert!(rt; &out == b"\x00\x05DOORSH01\x00\x02", "other sheet");
}

// A sheet of 16,384 bytes: 1,364 entries of twelve bytes, and one of sixteen.
fn largest(rt: &impl Abort, heap: Global) -> Result<Vec<u8>, Fail> {
    let mut sheet = vec![in heap; 0; 16384]?;
    let mut at = 0;
    for count in 1..1365u16 {
        at = write(Entry { count, ..SHORTEST }, &mut sheet, at)?;
    }
    let last: Entry<&[u8]> = Entry {
        drawing: Some(b"A/1"),
        ..SHORTEST
    };
    assert_eq!(rt; write(last, &mut sheet, at), Ok(16384));
    Ok(sheet)
}

#[test]
fn largest_sheet(rt: HostRuntime) -> Result<(), Fail> {
    let heap = rt.alloc();
    let sheet = largest(&rt, heap)?;
    for ends in &ENDS {
        let mut ciphertext = vec![in heap; 0; 16384]?;
        let mut tag = [0; 16];
        let n = seal(ends.suite, KEY, LABEL, &sheet, &mut ciphertext, &mut tag)?;
        let suite = &ends.suite;
        assert!(rt; ciphertext.len() == 16384);
        holds(&rt, n == 16384, "other length under suite", suite);
        holds(
            &rt,
            &ciphertext[0..16] == ends.first.as_slice(),
            "other front under suite",
            suite,
        );
        holds(
            &rt,
            &ciphertext[16368..16384] == ends.last.as_slice(),
            "other end under suite",
            suite,
        );
        holds(&rt, tag == ends.tag, "other tag under suite", suite);
        let mut out = vec![in heap; 0xee; 16384]?;
        let d = Delivery {
            suite: ends.suite,
            key: KEY,
            header: LABEL,
            ciphertext: &ciphertext,
            tag: &tag,
        };
        let count = open_sheet(d, &mut out)?;
        holds(&rt, count == 1365, "other count under suite", suite);
        holds(
            &rt,
            out.as_slice() == sheet.as_slice(),
            "other sheet under suite",
            suite,
        );
    }
    Ok(())
}

// A delivery is refused with this number, fault and place. The buffer is as it was filled, but for
// zeros where a message was opened.
fn refuses(
    rt: &impl Abort,
    heap: Global,
    d: Delivery<'_>,
    room: usize,
    number: u8,
    fault: SheetFault,
    place: usize,
    case: &impl Display,
) -> Result<(), Fail> {
    let mut out = vec![in heap; 0xee; room]?;
    holds(
        rt,
        open_sheet(d, &mut out) == refused(fault, place),
        "other answer",
        case,
    );
    holds(rt, fault.number() == number, "other number", case);
    let zeros = if number < 9 { 0 } else { d.ciphertext.len() };
    for (i, b) in out.as_slice().iter().enumerate() {
        let held = if i < zeros { 0 } else { 0xee };
        holds(rt, *b == held, "other bytes after a refusal", case);
    }
    Ok(())
}

// A delivery, the room for its sheet, and the number, the fault and the place of its refusal.
const REFUSED: [(Delivery<'static>, usize, u8, SheetFault, usize); 5] = [
    (
        Delivery {
            suite: 9,
            key: b"fifteen old key",
            ..SHAFT
        },
        90,
        2,
        SheetFault::Session(SessionFault::Key(KeyFault::Suite)),
        9,
    ),
    (
        Delivery {
            key: b"fifteen old key",
            ..SHAFT
        },
        90,
        3,
        SheetFault::Session(SessionFault::Key(KeyFault::Length)),
        15,
    ),
    (SHAFT, 83, 6, SheetFault::Session(SessionFault::Room), 0),
    (
        Delivery {
            ciphertext: b"",
            ..SHAFT
        },
        90,
        7,
        SheetFault::Session(SessionFault::Empty),
        0,
    ),
    (
        Delivery {
            tag: b"\xea\x05\x24\x18\x72\x93\xbd\x44\x12\x77\xfc\x2d",
            ..SHAFT
        },
        90,
        8,
        SheetFault::Session(SessionFault::Tag),
        0,
    ),
];

#[test]
fn refused_deliveries(rt: HostRuntime) -> Result<(), Fail> {
    for (d, room, number, fault, place) in REFUSED {
        refuses(&rt, rt.alloc(), d, room, number, fault, place, &number)?;
    }
    Ok(())
}

#[test]
fn refused_for_header(rt: HostRuntime) -> Result<(), Fail> {
    let heap = rt.alloc();
    let long = vec![in heap; 0x20; 65537]?;
    let d = Delivery {
        header: long.as_slice(),
        ..SHAFT
    };
    refuses(
        &rt,
        heap,
        d,
        90,
        4,
        SheetFault::Session(SessionFault::Header),
        0,
        &"header",
    )
}

#[test]
fn refused_for_body(rt: HostRuntime) -> Result<(), Fail> {
    let heap = rt.alloc();
    let long = vec![in heap; 0; 1048577]?;
    let d = Delivery {
        ciphertext: long.as_slice(),
        ..SHAFT
    };
    let fault = SheetFault::Session(SessionFault::Body);
    refuses(&rt, heap, d, 1048577, 5, fault, 0, &"body")
}

// A sheet that is sealed as it is, and then refused at an entry.
fn refuses_sealed(
    rt: &impl Abort,
    heap: Global,
    suite: u8,
    sheet: &[u8],
    number: u8,
    fault: SheetFault,
    place: usize,
    case: &impl Display,
) -> Result<(), Fail> {
    assert!(rt; sheet.len() < 99, "{case}");
    let mut ciphertext = vec![in heap; 0; sheet.len()]?;
    let mut tag = [0; 16];
    seal(suite, KEY, LABEL, sheet, &mut ciphertext, &mut tag)?;
    let d = Delivery {
        suite,
        ciphertext: ciphertext.as_slice(),
        tag: &tag,
        ..SHAFT
    };
    refuses(rt, heap, d, sheet.len() + 6, number, fault, place, case)
}

const BROKEN: [(&'static [u8], u8, SheetFault, usize); 6] = [
    (b"\x00", 10, SheetFault::Cut, 0),
    (
        b"\x00\x05DOORSH01\x00\x02\x00\x05DOORSH",
        10,
        SheetFault::Cut,
        12,
    ),
    (
        b"\x00\x05DOORSH01\x00\x02\x00\x45DOORSH01\x00\x02",
        11,
        SheetFault::UnknownBit,
        12,
    ),
    (
        b"\x00\x05DOORSH01\x00\x02\x00\x01DOORSH01",
        12,
        SheetFault::Missing,
        12,
    ),
    (b"\x00\x05DOORSH01\x00\x00", 13, SheetFault::Value, 0),
    (
        b"\x00\x0dDOORSH01\x00\x02\x05\x00\x05DOOR/H01\x00\x02",
        13,
        SheetFault::Value,
        13,
    ),
];

#[test]
fn refused_sheets(rt: HostRuntime) -> Result<(), Fail> {
    for (i, (sheet, number, fault, place)) in BROKEN.into_iter().enumerate() {
        for suite in SEALED.map(|d| d.suite) {
            refuses_sealed(
                &rt,
                rt.alloc(),
                suite,
                sheet,
                number,
                fault,
                place,
                &format_args!("case {i}"),
            )?;
        }
    }
    Ok(())
}

// The bytes with one bit turned, in each of them in turn.
fn each_damaged(heap: Global, bytes: &[u8]) -> Result<Vec<Vec<u8>>, AllocError> {
    let mut all = Vec::new(heap);
    for i in 0..bytes.len() {
        let mut damaged = bytes.to_vec(heap)?;
        damaged[i] ^= 0x80;
        all.push(damaged)?;
    }
    Ok(all)
}

// A delivery of the sheet that is damaged is refused as forged.
fn forged(rt: &impl Abort, heap: Global, d: Delivery<'_>, case: &impl Display) -> Result<(), Fail> {
    refuses(
        rt,
        heap,
        d,
        90,
        9,
        SheetFault::Session(SessionFault::Forged),
        84,
        case,
    )
}

// One bit of each byte that a gateway carries, under every suite but the mirror, which protects
// nothing.
fn damage_shows(rt: &impl Abort, heap: Global, d: Delivery<'_>) -> Result<(), Fail> {
    for header in &each_damaged(heap, d.header)? {
        forged(rt, heap, Delivery { header, ..d }, &"a byte of the header")?;
    }
    for ciphertext in &each_damaged(heap, d.ciphertext)? {
        forged(
            rt,
            heap,
            Delivery { ciphertext, ..d },
            &"a byte of the ciphertext",
        )?;
    }
    for tag in &each_damaged(heap, d.tag)? {
        forged(rt, heap, Delivery { tag, ..d }, &"a byte of the tag")?;
    }
    Ok(())
}

#[test]
fn damage_is_refused(rt: HostRuntime) -> Result<(), Fail> {
    for d in [SHAFT, FOUR_ROUNDS, TEN_ROUNDS, PADDED, SPECK] {
        damage_shows(&rt, rt.alloc(), d)?;
    }
    Ok(())
}
