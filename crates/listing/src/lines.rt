//! An entry as a line of text in a caller's buffer.
ghost use Rattle.std.specs.Prelude.{◌≡◌};
ghost use Rattle.sheet.specs.Entries.{Good, item_of};
ghost use Rattle.listing.specs.Lines.{LineLaw, Lined, line_of};

use crate::fields::{Line, put_field};
use crate::need::yearly_need;
use buffer::Buffer;
use fault::{Placed, SheetFault};
use sheet::{Entry, is_good, put};

/// The most bytes that the line of a good entry has.
pub const LINE_LIMIT: usize = 70;

// The line of a good entry.
fn compose(e: Entry<&[u8]>) -> Line
    requires { Good (item_of e) }
    ensures { result ≡ line_of (item_of e.entry) }
{
    let mut line = Buffer::new();
    let need = e.months.and_then(|m| yearly_need(e.count, m));
    put_field(&mut line, Some(e.code), b';');
    put_field(&mut line, e.parent, b';');
    put_field(&mut line, Some(e.count), b';');
    put_field(&mut line, e.landing, b';');
    put_field(&mut line, e.months, b';');
    put_field(&mut line, need, b';');
    put_field(&mut line, e.drawing, b'\n');
    line
}

/// Writes the line of an entry at a place, and answers where the next would begin.
///
/// # Errors
///
/// 13 if a value is outside its form, else 6 if there is no room; the buffer is then unaltered.
pub fn line(e: Entry<&[u8]>, buf: &mut [u8], at: usize) -> Result<usize, Placed<SheetFault>>
    ensures text { Lined buf.old buf.new at (item_of e.entry) result }
    ensures law { LineLaw }
{
    if !is_good(e) {
        return Err(Placed {
            fault: SheetFault::Value,
            place: at,
        });
    }
    let text = compose(e);
    put(text.as_slice(), buf, at)
}
