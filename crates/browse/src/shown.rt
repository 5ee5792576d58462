//! What a call answered, as a line.
ghost use Rattle.std.specs.Prelude.{OnOk, Some};
ghost use Rattle.std.specs.Io.KnownBytes.{Appends};
ghost use Rattle.sheet.specs.Entries.{Good, item_of};
ghost use Rattle.listing.specs.Lines.{line_of};
ghost use Rattle.browse.specs.Shown.{a_line, field_text, reply_text};

use fault::Fault;
use listing::{LINE_LIMIT, line};
use reading::Reply;
use sheet::{Entry, Field};
use std::io;
use std::io::{Error, ErrorKind, Write};
use streams::put;

/// Writes the text for a reply.
pub(crate) fn show<W: Write>(output: &mut W, reply: Reply<'_>) -> io::Result<()>
    ensures { OnOk result (Appends (W.contents output.old) (W.contents output.new)
        (reply_text reply.entry)) }
{
    match reply {
        Reply::Next(Ok(Some(entry))) => show_entry(output, entry),
        Reply::Next(Ok(None)) => put(output, b"end\n"),
        Reply::Next(Err(fault)) => {
            let number = fault.fault.number();
            writeln!(output, "refused {number}")
        }
        Reply::Field(None) => put(output, b"absent\n"),
        Reply::Field(Some(field)) => show_field(output, field),
    }
}

fn show_field<W: Write>(output: &mut W, field: Field<&[u8]>) -> io::Result<()>
    ensures { OnOk result (Appends (W.contents output.old) (W.contents output.new)
        (a_line (field_text field.entry))) }
{
    match field {
        Field::Code(s) | Field::Parent(s) | Field::Drawing(s) => show_text(output, s),
        Field::Count(n) | Field::Months(n) => writeln!(output, "{n}"),
        Field::Landing(z) => writeln!(output, "{z}"),
    }
}

fn show_text<W: Write>(output: &mut W, s: &[u8]) -> io::Result<()>
    ensures { OnOk result (Appends (W.contents output.old) (W.contents output.new) (a_line s.now)) }
{
    put(output, s)?;
    put(output, b"\n")
}

// An entry as its line of the list.
fn show_entry<W: Write>(output: &mut W, entry: Entry<&[u8]>) -> io::Result<()>
    ensures { OnOk result (Appends (W.contents output.old) (W.contents output.new)
        (line_of (item_of entry.entry))) }
{
    let mut row = [0; LINE_LIMIT];
    match line(entry, &mut row, 0) {
        Ok(end) => put(output, &row[..end]),
        Err(_) => Err(Error::from(ErrorKind::InvalidData)),
    }
}
