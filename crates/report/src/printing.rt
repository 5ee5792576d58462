//! From an input to what is printed for it.
ghost use Rattle.std.specs.Prelude.{◌≡◌, ◌≤◌, ℕ, List, length, drop, IfOk, OnErr};
ghost use Rattle.streams.specs.Streams.{Wrote};
ghost use Rattle.report.specs.Report.{Judged, Listed, Printed, PrintedLaw};
ghost use Rattle.report.specs.Runs.{Ran};

use crate::lines::{LIST_LIMIT, put_lines};
use crate::refusals::line_of;
use delivery::open_sheet;
use fault::{ConsoleFault, Placed};
use std::io;
use std::io::{Read, Write};
use streams::{fill, put};
use wire::{CIPHERTEXT_LIMIT, INPUT_LIMIT, parse};

// Parses a delivery and opens its sheet into the front of a buffer, and answers how many bytes the
// sheet has.
fn judge(input: &[u8], opened: &mut [u8]) -> Result<usize, Placed<ConsoleFault>>
    requires { CIPHERTEXT_LIMIT ≤ length opened.old }
    ensures { Judged input.now opened.new result }
{
    let delivery = parse(input)?;
    let _count = open_sheet(delivery, opened)?;
    Ok(delivery.ciphertext.len())
}

/// Puts the lines of the list that the input delivers into the front of `text`, and answers how
/// many bytes they are. There is always room.
///
/// # Errors
///
/// Why the input delivers no list: 1 if it is no delivery, 2 if no suite has its number, 7 if its
/// ciphertext is empty, 9 if it is no genuine seal, and 10 to 13 if what was sealed is no sheet.
/// `text` is then as it was.
pub fn list(input: &[u8], text: &mut [u8; LIST_LIMIT]) -> Result<usize, Placed<ConsoleFault>>
    ensures answer { Listed input.now text.new result }
    ensures within { IfOk result (λ n. n ≤ LIST_LIMIT) }
    ensures rest { IfOk result (λ n. drop n text.new ≡ drop n text.old) }
    ensures refused { OnErr result (text.new ≡ text.old) }
{
    let mut opened = [0; CIPHERTEXT_LIMIT];
    let len = judge(input, &mut opened)?;
    let len = put_lines(&opened[..len], text)?;
    Ok(len)
}

/// Writes the lines of the list that the input delivers, or the line of its refusal. Nothing is
/// written before the whole sheet is judged.
///
/// # Errors
///
/// What the writer fails with. A front of the text is written then.
pub fn print<W: Write>(input: &[u8], output: &mut W) -> io::Result<()>
    ensures { (text : List ℕ) × Printed input.now text
        × Wrote (W.contents output.old) (W.contents output.new) text result }
{
    let mut text = [0; LIST_LIMIT];
    match list(input, &mut text) {
        Ok(len) => put(output, &text[..len]),
        Err(refused) => put(output, line_of(refused).as_slice()),
    }
}

/// A theorem: what is printed for an input is one text.
pub fn printed_stands() -> u8
    ensures { PrintedLaw }
{
    0
}

/// Reads an input and writes what is printed for it. No more than `INPUT_LIMIT` bytes are read, one
/// more than the longest delivery has.
///
/// # Errors
///
/// What the reader fails with, and then nothing is written; or what the writer fails with, and then
/// a front of the text is written.
pub fn run<R: Read, W: Write>(reader: &mut R, writer: &mut W) -> io::Result<()>
    ensures { Ran (R.remaining reader.old) (R.remaining reader.new)
        (W.contents writer.old) (W.contents writer.new) result }
{
    let mut input = [0; INPUT_LIMIT];
    let len = fill(reader, &mut input)?;
    print(&input[..len], writer)
}
