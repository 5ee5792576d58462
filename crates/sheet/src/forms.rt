//! The tests of an entry's values.
ghost use Rattle.std.specs.Prelude.{◌≡◌, ◌↔◌, IsTrue};
ghost use Rattle.sheet.specs.Table.{bit_of};
ghost use Rattle.sheet.specs.Entries.{Good, item_of, sign, signs};
ghost use Rattle.sheet.specs.Tests.{code_test, drawing_test};

use crate::entry::{Entry, Kind};

// A to Z, 0 to 9, and a slash where one is allowed.
fn is_sign(slash: bool, b: u8) -> bool
    ensures { result ≡ sign slash b }
{
    b.is_ascii_uppercase() || b.is_ascii_digit() || (slash && b == b'/')
}

// Whether each byte is such a sign; the loop ends at the first that is none.
pub(crate) fn are_signs(slash: bool, part: &[u8]) -> bool
    ensures { result ≡ signs slash part.now }
{
    for b in part {
        if !is_sign(slash, *b) {
            return false;
        }
    }
    true
}

fn code_ok(kind: Kind, s: &[u8]) -> bool
    ensures { result ≡ code_test (bit_of kind) s.now }
{
    s.len() == kind.row().width && are_signs(false, s)
}

// A drawing's length and signs.
fn drawing_ok(s: &[u8]) -> bool
    ensures { result ≡ drawing_test s.now }
{
    match i32::try_from(s.len()) {
        Ok(n) => Kind::Drawing.admits(n) && are_signs(true, s),
        Err(_) => false,
    }
}

/// Whether every field has its form: the signs and the length of a text, the bounds of a number.
pub fn is_good(e: Entry<&[u8]>) -> bool
    ensures { IsTrue result ↔ Good (item_of e.entry) }
{
    code_ok(Kind::Code, e.code)
        && e.parent.is_none_or(|s| code_ok(Kind::Parent, s))
        && Kind::Count.admits(i32::from(e.count))
        && e.landing.is_none_or(|z| Kind::Landing.admits(i32::from(z)))
        && e.months.is_none_or(|n| Kind::Months.admits(i32::from(n)))
        && e.drawing.is_none_or(drawing_ok)
}
