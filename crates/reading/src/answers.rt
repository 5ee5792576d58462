//! Calls on a reader over a sheet, one after another.
ghost use Rattle.std.specs.Prelude.{◌≡◌, List, None};
ghost use Rattle.sheet.specs.Entries.{AllGood, Item, sheet_of};
ghost use Rattle.reading.specs.Replies.{AllAnswered, Replies, asks_of, replies_of};
ghost use Rattle.reading.specs.Readers.{Replied};

use crate::script::{Ask, Call, Reply};
use sheet::Reader;

// One call on the reader.
fn reply<'a>(reader: &mut Reader<'a>, ask: Ask) -> Reply<'a>
    ensures { Replied reader.old reader.new ask result }
{
    match ask {
        Ask::Next => Reply::Next(reader.next()),
        Ask::Field(kind) => Reply::Field(reader.field(kind)),
    }
}

/// Answers each of the calls in its place, on a new reader over a sheet that was opened. Codes and
/// drawings are lent from the sheet, which is only read: so a caller who opens a sheet by
/// `delivery::open_sheet` and then calls this knows what the buffer holds from then on, also once
/// the replies are let go. Over bytes that are no sheet the replies are the reader's too, its
/// refusals among them.
pub fn answer<'a>(sheet: &'a [u8], calls: &mut [Call<'a>])
    ensures asks { asks_of calls.new ≡ asks_of calls.old }
    ensures replies { Replies sheet.now sheet.entry.ref_ptr 0 None
        (asks_of calls.old) (replies_of calls.new) }
    ensures answered { (es : List Item) → AllGood es → sheet.now ≡ sheet_of es
        → AllAnswered sheet.entry.ref_ptr es calls.old calls.new }
{
    let mut reader = Reader::new(sheet);
    for call in calls.iter_mut() {
        call.reply = Some(reply(&mut reader, call.ask));
    }
}
