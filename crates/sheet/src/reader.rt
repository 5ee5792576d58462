//! The reader of an opened sheet, entry by entry.
ghost use Rattle.std.specs.Prelude.{◌≡◌, ◌<◌, ◌≤◌, List, All, length, drop, None};
ghost use Rattle.sheet.specs.Entries.{AllGood, Item, sheet_of};
ghost use Rattle.sheet.specs.Calls.{Answered, AnsweredInPlace, Follows, last_field, last_of};

use crate::entry::{Entry, Field, Kind};
use crate::parts::read_entry;
use fault::{Placed, SheetFault};

/// Reads an opened sheet: a place in it, counted in bytes, and the entry last answered.
#[derive(Drop)]
pub struct Reader<'a> {
    sheet: &'a [u8],
    place: usize,
    last: Option<Entry<&'a [u8]>>,
    ghost within: { place ≤ length sheet.now },
    ghost octets: { All (λ b. b < 256) sheet.now },
}

impl<'a> Reader<'a> {
    /// A reader at the sheet's first byte.
    pub fn new(sheet: &'a [u8]) -> Reader<'a>
        ensures { (result.sheet ≡ sheet.entry) × (result.place ≡ 0) × (result.last ≡ None) }
    {
        Reader {
            sheet,
            place: 0,
            last: None,
        }
    }

    /// The following entry, or `None` at the sheet's end.
    ///
    /// # Errors
    ///
    /// The refusal, 10 to 13, of the bytes at the place; it leaves the reader as it was.
    pub fn next(&mut self) -> Result<Option<Entry<&'a [u8]>>, Placed<SheetFault>>
        ensures answer { Answered self.old.sheet.now self.old.place self.new.place result }
        ensures follows { (es : List Item) → AllGood es
            → drop self.old.place self.old.sheet.now ≡ sheet_of es
            → Follows self.old.sheet.now self.new.place es result }
        ensures last { self.new.last ≡ last_of self.old.last result }
        ensures lies { AnsweredInPlace self.old.sheet.ref_ptr self.old.place self.new.place result }
        ensures same { self.new.sheet ≡ self.old.sheet }
    {
        let sheet = self.sheet;
        let place = self.place;
        if place == sheet.len() {
            return Ok(None);
        }
        match read_entry(&sheet[place..]) {
            Ok((entry, rest)) => {
                self.place = sheet.len() - rest.len();
                self.last = Some(entry);
                Ok(Some(entry))
            }
            Err(fault) => Err(Placed { fault, place }),
        }
    }

    /// A field of the entry last answered, or `None` where it has no such field or none was
    /// answered yet.
    pub fn field(&self, kind: Kind) -> Option<Field<&'a [u8]>>
        ensures { result ≡ last_field kind self.now.last }
    {
        let e = self.last?;
        match kind {
            Kind::Code => Some(Field::Code(e.code)),
            Kind::Parent => Some(Field::Parent(e.parent?)),
            Kind::Count => Some(Field::Count(e.count)),
            Kind::Landing => Some(Field::Landing(e.landing?)),
            Kind::Months => Some(Field::Months(e.months?)),
            Kind::Drawing => Some(Field::Drawing(e.drawing?)),
        }
    }
}
