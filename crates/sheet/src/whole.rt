//! The test of a whole sheet.
ghost use Rattle.sheet.specs.Calls.{Tested};
ghost use Rattle.sheet.specs.Laws.{BrokenLaw, EntryLaw, FirstLaw, HoldsLaw, ReadingLaw};
ghost use Rattle.sheet.specs.Laws.{RefusalLaw, UniqueLaw};

use crate::reader::Reader;
use fault::{Placed, SheetFault};

/// Tests every entry and answers how many there are. A sheet has one at least.
///
/// # Errors
///
/// The refusal, 10 to 13, of the first entry that cannot be read; 10 at place 0 if there is none.
pub fn test(sheet: &[u8]) -> Result<usize, Placed<SheetFault>>
    ensures { Tested sheet.now result }
{
    let mut reader = Reader::new(sheet);
    let mut count = 0;
    while let Some(_) = reader.next()? {
        count += 1;
    }
    if count == 0 {
        return Err(Placed {
            fault: SheetFault::Cut,
            place: 0,
        });
    }
    Ok(count)
}

/// At any place a good entry stands or the bytes are refused, never both. An entry is read exactly
/// where its bytes stand; where none is read, the refusal is the one rule that is broken first; no
/// two lists of entries have the same sheet; a sheet that holds a list is not broken, and a broken
/// sheet has one refusal.
pub fn reading_stands() -> u8
    ensures entry { EntryLaw }
    ensures reads { ReadingLaw }
    ensures refuses { RefusalLaw }
    ensures first { FirstLaw }
    ensures unique { UniqueLaw }
    ensures holds { HoldsLaw }
    ensures broken { BrokenLaw }
{
    0
}
