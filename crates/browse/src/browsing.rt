//! From a delivery and calls to the replies that are printed.
ghost use Rattle.std.specs.Prelude.{◌≡◌, IfOk, List, OnOk, Ok, ℕ};
ghost use Rattle.std.specs.Io.KnownBytes.{Appends};
ghost use Rattle.reading.specs.Replies.{asks_of, replies_of};
ghost use Rattle.wire.specs.Wire.{Parsed};
ghost use Rattle.browse.specs.Shown.{refusal_text, replies_text};
ghost use Rattle.browse.specs.Browsing.{Browsed, Ran};

use crate::shown::show;
use fault::{ConsoleFault, Placed};
use reading::{Call, play};
use std::alloc::Global;
use std::io;
use std::io::{Read, Write};
use streams::{fill, put};
use wire::{CIPHERTEXT_LIMIT, Delivery, INPUT_LIMIT, parse};

/// Reads one delivery, opens its sheet, and writes what a new reader answers to each of the calls;
/// or the refusal. No more than `INPUT_LIMIT` bytes are read, and nothing is written before all of
/// the text is made.
///
/// # Errors
///
/// What the reader fails with, and that memory ran out; nothing is written then. Or what the writer
/// fails with, and then a front of the text is written.
pub(crate) fn run<'a, R: Read, W: Write>(
    alloc: Global,
    reader: &mut R,
    writer: &mut W,
    opened: &'a mut [u8; CIPHERTEXT_LIMIT],
    calls: &mut [Call<'a>],
) -> io::Result<()>
    ensures { Ran (asks_of calls.old) (R.remaining reader.old) (R.remaining reader.new)
        (W.contents writer.old) (W.contents writer.new) result }
{
    let mut input = [0; INPUT_LIMIT];
    let len = fill(reader, &mut input)?;
    let text = text_for(alloc, &input[..len], opened, calls)?;
    put(writer, text.as_slice())
}

// The text for an input.
fn text_for<'a>(
    alloc: Global,
    input: &[u8],
    opened: &'a mut [u8; CIPHERTEXT_LIMIT],
    calls: &mut [Call<'a>],
) -> io::Result<Vec<u8>>
    ensures { (text : List ℕ) × Browsed input.now (asks_of calls.old) text
        × IfOk result (λ v. v.items ≡ text) }
{
    let mut text = Vec::new(alloc);
    match parse(input) {
        Ok(delivery) => browse(&mut text, delivery, opened, calls)?,
        Err(fault) => refuse(&mut text, fault)?,
    }
    Ok(text)
}

// Opens the sheet and answers the calls.
fn browse<'a, W: Write>(
    writer: &mut W,
    delivery: Delivery<'_>,
    opened: &'a mut [u8; CIPHERTEXT_LIMIT],
    calls: &mut [Call<'a>],
) -> io::Result<()>
    ensures { (input : List ℕ) → Parsed input (Ok delivery.entry)
        → (text : List ℕ) × Browsed input (asks_of calls.old) text
        × OnOk result (Appends (W.contents writer.old) (W.contents writer.new) text) }
{
    match play(delivery, opened, calls).outcome {
        Ok(_) => show_all(writer, calls),
        Err(fault) => refuse(writer, fault.into()),
    }
}

// Writes the text for the replies, one after another.
fn show_all<W: Write>(writer: &mut W, calls: &[Call<'_>]) -> io::Result<()>
    ensures { OnOk result (Appends (W.contents writer.old) (W.contents writer.new)
        (replies_text (replies_of calls.now))) }
{
    for call in calls {
        if let Some(reply) = call.reply {
            show(writer, reply)?;
        }
    }
    Ok(())
}

// Writes the line of a refusal.
fn refuse<W: Write>(writer: &mut W, fault: Placed<ConsoleFault>) -> io::Result<()>
    ensures { OnOk result (Appends (W.contents writer.old) (W.contents writer.new)
        (refusal_text fault)) }
{
    writeln!(writer, "{fault}")
}
