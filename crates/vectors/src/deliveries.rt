//! Deliveries that are accepted, one for each refusal that a delivery can meet, two that bear
//! another label, and what is printed for each.
use crate::rows::half_right;
use delivery::seal;
use hexits::Hex;
use report::print;
use std::alloc::{AllocError, Global};
use std::io;
use std::io::Write;
use suites::Shaft;
use suites::listed::{MIRROR, POET_AES_FOUR, POET_AES_TEN, SHAFT, SHAFT_PADDED, SHAFT_SPECK};

const KEY: [u8; 16] = [0x2a; 16];

const HEADER: &[u8; 6] = b"lift 7";

// A header of fifteen bytes, and the same with 80 behind it.
const FIFTEEN: &[u8; 15] = b"lift 7, sheet 1";

const MARKED: &[u8; 16] = b"lift 7, sheet 1\x80";

// The longest sheet that is shown. No header is longer.
const MOST: usize = 39;

const SHEET: &[u8; MOST] =
    b"\x00\x05DOORSH01\x00\x02\x00\x3fROLLER12DOORSH01\x00\x18\xfe\x00\x12\x03R/7";

const ENTRY: &[u8; 12] = b"\x00\x05DOORSH01\x00\x02";

// One in 24 months, a need of a half, which is rounded up; and one in 25 months, which is rounded
// down.
const NEEDS: &[u8; 28] = b"\x00\x15DOORSH01\x00\x01\x00\x18\x00\x15DOORSH02\x00\x01\x00\x19";

// Sheets that are sealed under these suites, and accepted.
const ACCEPTED: [(u8, &[u8]); 7] = [
    (SHAFT, SHEET),
    (SHAFT, NEEDS),
    (POET_AES_FOUR, ENTRY),
    (POET_AES_TEN, ENTRY),
    (MIRROR, ENTRY),
    (SHAFT_PADDED, ENTRY),
    (SHAFT_SPECK, ENTRY),
];

// An entry cut short, one with an unknown bit, one without a count, one with the count 0, and a
// good one with a byte behind it.
const BROKEN: [&[u8]; 5] = [
    b"\x00",
    b"\x00\x45DOORSH01\x00\x02",
    b"\x00\x01DOORSH01",
    b"\x00\x05DOORSH01\x00\x00",
    b"\x00\x05DOORSH01\x00\x02\x00",
];

/// Writes the deliveries, each with what is printed for it.
pub(crate) fn deliveries<W: Write>(alloc: Global, writer: &mut W) -> anyhow::Result<()> {
    for (suite, sheet) in ACCEPTED {
        show(writer, &delivery(alloc, suite, sheet)?)?;
    }
    altered(alloc, writer)?;
    forgeries(alloc, writer)?;
    for sheet in BROKEN {
        show(writer, &delivery(alloc, SHAFT, sheet)?)?;
    }
    for suite in [SHAFT, SHAFT_PADDED] {
        relabelled(alloc, writer, suite)?;
    }
    Ok(())
}

// A delivery cut short, one of a suite that is not listed, and one with no ciphertext.
fn altered<W: Write>(alloc: Global, writer: &mut W) -> anyhow::Result<()> {
    let mut sealed = delivery(alloc, SHAFT, SHEET)?;
    show(writer, &sealed[..sealed.len().saturating_sub(1)])?;
    if let Some(suite) = sealed.first_mut() {
        *suite = 9;
    }
    show(writer, &sealed)?;
    show(writer, &assembled(alloc, SHAFT, HEADER, &[], &[0; 16])?)
}

// A tag whose last bit is turned, and one that passes the second test of an opening alone.
fn forgeries<W: Write>(alloc: Global, writer: &mut W) -> anyhow::Result<()> {
    let mut ciphertext = [0; 12];
    let mut tag = [0; 16];
    seal(SHAFT, &KEY, HEADER, ENTRY, &mut ciphertext, &mut tag)?;
    let mut turned = tag;
    turned[15] ^= 1;
    show(
        writer,
        &assembled(alloc, SHAFT, HEADER, &ciphertext, &turned)?,
    )?;
    tag[0] ^= 1;
    let tag = half_right::<Shaft>(KEY, HEADER, &ciphertext, &tag);
    show(writer, &assembled(alloc, SHAFT, HEADER, &ciphertext, &tag)?)
}

// One entry, sealed under the header of fifteen bytes, and delivered with 80 behind that header.
fn relabelled<W: Write>(alloc: Global, writer: &mut W, suite: u8) -> anyhow::Result<()> {
    let mut ciphertext = [0; 12];
    let mut tag = [0; 16];
    seal(suite, &KEY, FIFTEEN, ENTRY, &mut ciphertext, &mut tag)?;
    show(writer, &assembled(alloc, suite, MARKED, &ciphertext, &tag)?)
}

// The delivery of a sheet, sealed.
fn delivery(alloc: Global, suite: u8, sheet: &[u8]) -> anyhow::Result<Vec<u8>> {
    let mut ciphertext = [0; MOST];
    let mut tag = [0; 16];
    let n = seal(suite, &KEY, HEADER, sheet, &mut ciphertext, &mut tag)?;
    Ok(assembled(alloc, suite, HEADER, &ciphertext[..n.min(MOST)], &tag)?)
}

// The parts of a delivery, end to end.
fn assembled(
    alloc: Global,
    suite: u8,
    header: &[u8],
    ciphertext: &[u8],
    tag: &[u8; 16],
) -> Result<Vec<u8>, AllocError> {
    let mut all = Vec::new(alloc);
    all.push(suite)?;
    all.extend_from_slice(&KEY)?;
    all.extend_from_slice(&[0, header.len().min(MOST) as u8])?;
    all.extend_from_slice(header)?;
    all.extend_from_slice(&[0, 0, 0, ciphertext.len().min(MOST) as u8])?;
    all.extend_from_slice(ciphertext)?;
    all.extend_from_slice(tag)?;
    Ok(all)
}

fn show<W: Write>(writer: &mut W, delivery: &[u8]) -> anyhow::Result<()> {
    writeln!(writer, "delivery   {}", Hex(delivery))?;
    writeln!(writer, "printed")?;
    print(delivery, writer)?;
    writeln!(writer)?;
    Ok(())
}
