//! Deliveries from bytes: the shortest, the longest, and inputs that are cut short, too long or
//! over their limits.
use crate::samples::holds;
use crate::vectors::KEY;
use fault::{ConsoleFault, Placed};
use std::alloc::{AllocError, Global};
use std::fmt::Display;
use std::process::Abort;
use std::test::Fail;
use wire::parse;

const TAG: &'static [u8; 16] = b"\x01\x02\x03\x04\x05\x06\x07\x08\x09\x0a\x0b\x0c\x0d\x0e\x0f\x10";

// A delivery under suite 4, with a header and a ciphertext of these lengths, which tells `told` as
// the length of its ciphertext.
fn delivery(heap: Global, header: u16, told: u32, ciphertext: u16) -> Result<Vec<u8>, AllocError> {
    let header_end = 19 + usize::from(header);
    let mut bytes = vec![in heap; 4; 1]?;
    bytes.extend_from_slice(KEY)?;
    bytes.extend_from_slice(&header.to_be_bytes())?;
    bytes.resize(header_end, 0x22)?;
    bytes.extend_from_slice(&told.to_be_bytes())?;
    bytes.resize(header_end + 4 + usize::from(ciphertext), 0x33)?;
    bytes.extend_from_slice(TAG)?;
    Ok(bytes)
}

fn parses(
    rt: &impl Abort,
    heap: Global,
    header: u16,
    ciphertext: u16,
    len: usize,
    case: &impl Display,
) -> Result<(), Fail> {
    let input = delivery(heap, header, u32::from(ciphertext), ciphertext)?;
    holds(rt, input.len() == len, "other length", case);
    let d = parse(&input)?;
    holds(rt, d.suite == 4, "other suite", case);
    holds(rt, d.key == KEY.as_slice(), "other key", case);
    let filled = vec![in heap; 0x22; usize::from(header)]?;
    holds(rt, d.header == filled.as_slice(), "other header", case);
    let filled = vec![in heap; 0x33; usize::from(ciphertext)]?;
    holds(
        rt,
        d.ciphertext == filled.as_slice(),
        "other ciphertext",
        case,
    );
    holds(rt, d.tag == TAG.as_slice(), "other tag", case);
    Ok(())
}

fn refuses(rt: &impl Abort, input: &[u8], place: usize, case: &impl Display) -> Result<(), Fail> {
    let Err(e) = parse(input) else {
        return Err(Fail::new("parsed"));
    };
    assert_eq!(rt;
        e,
        Placed {
            fault: ConsoleFault::Input,
            place,
        },
        "{case}"
    );
    Ok(())
}

#[test]
fn lengths(rt: HostRuntime) -> Result<(), Fail> {
    let heap = rt.alloc();
    parses(&rt, heap, 0, 0, 39, &"the shortest")?;
    parses(&rt, heap, 5, 12, 56, &"some between")?;
    parses(&rt, heap, 4096, 16384, 20519, &"the longest")?;
    refuses(&rt, &delivery(heap, 4097, 12, 12)?, 4148, &"a long header")?;
    refuses(
        &rt,
        &delivery(heap, 5, 16385, 16385)?,
        16429,
        &"a long ciphertext",
    )?;
    refuses(
        &rt,
        &delivery(heap, 5, 65548, 12)?,
        56,
        &"a length of more than two bytes",
    )
}

#[test]
fn cut_or_followed(rt: HostRuntime) -> Result<(), Fail> {
    let heap = rt.alloc();
    let mut input = delivery(heap, 5, 12, 12)?;
    for n in 0..input.len() {
        refuses(&rt, &input[0..n], n, &format_args!("cut to {n} bytes"))?;
    }
    input.push(0)?;
    refuses(&rt, &input, 57, &"a byte after the tag")
}

#[test]
fn past_the_longest(rt: HostRuntime) -> Result<(), Fail> {
    let mut input = delivery(rt.alloc(), 4096, 16384, 16384)?;
    for len in [20520, 20521, 1048576] {
        input.resize(len, 0)?;
        refuses(&rt, &input, 20520, &format_args!("{len} bytes"))?;
    }
    Ok(())
}
