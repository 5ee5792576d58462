//! The lines of a sheet that was tested.
ghost use Rattle.std.specs.Prelude.{◌≡◌, ◌≤◌, List, ◌++◌, length, drop};
ghost use Rattle.std.specs.Result.{IsOkAnd};
ghost use Rattle.sheet.specs.Entries.{AllGood, Item, sheet_of};
ghost use Rattle.report.specs.Lists.{list_of};

use fault::{Placed, SheetFault};
use listing::{LINE_LIMIT, line};
use sheet::Reader;
use wire::CIPHERTEXT_LIMIT;

// The fewest bytes that an entry of a sheet has: its map, its code and its count.
const ENTRY_LEAST: usize = 12;

/// The most bytes that the list of a delivery has: a line for each entry that its sheet has room
/// for.
pub const LIST_LIMIT: usize = LINE_LIMIT * (CIPHERTEXT_LIMIT / ENTRY_LEAST);

// Puts the lines of all entries of a sheet into the front of a text, and answers how many bytes
// they are. No entry of a good sheet is refused, nor a line where the text has room for all.
pub(crate) fn put_lines(sheet: &[u8], text: &mut [u8]) -> Result<usize, Placed<SheetFault>>
    ensures { (es : List Item) → AllGood es → sheet.now ≡ sheet_of es
        → length (list_of es) ≤ length text.old
        → IsOkAnd result (λ n. (n ≡ length (list_of es))
        × (text.new ≡ list_of es ++ drop n text.old)) }
{
    let mut reader = Reader::new(sheet);
    let mut at = 0;
    while let Some(entry) = reader.next()? {
        at = line(entry, text, at)?;
    }
    Ok(at)
}
