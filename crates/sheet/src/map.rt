//! The map of an entry: which of its bits are set, and whether they may be.
ghost use Rattle.std.specs.Prelude.{◌≡◌, ◌<◌, ◌^◌, if◌then◌else◌};
ghost use Rattle.sheet.specs.Table.{all_below, bit_of, complete_at, is_set, known_at};
ghost use Rattle.sheet.specs.Entries.{item_map, item_of};

use crate::entry::{Entry, Kind};
use crate::table::{Need, row_at};

// Whether bit k of the map is set: by number, as ten of the sixteen bits are of no kind.
fn is_set(map: u16, k: usize) -> bool
    requires { k < 16 }
    ensures { result ≡ is_set map k }
{
    (map >> k) & 1 == 1
}

// Whether the bit of a kind is set.
pub(crate) fn has(map: u16, kind: Kind) -> bool
    ensures { result ≡ is_set map (bit_of kind) }
{
    is_set(map, kind.bit())
}

fn known_at(map: u16, k: usize) -> bool
    requires { k < 16 }
    ensures { result ≡ known_at map k }
{
    !(is_set(map, k) && row_at(k).need == Need::Unknown)
}

fn complete_at(map: u16, k: usize) -> bool
    requires { k < 16 }
    ensures { result ≡ complete_at map k }
{
    is_set(map, k) || row_at(k).need != Need::Required
}

// No bit is set that may not be.
pub(crate) fn only_known(map: u16) -> bool
    ensures { result ≡ all_below (known_at map) 16 }
{
    (0..16).all(|k| known_at(map, k))
}

// Each bit is set that must be.
pub(crate) fn all_required(map: u16) -> bool
    ensures { result ≡ all_below (complete_at map) 16 }
{
    (0..16).all(|k| complete_at(map, k))
}

// What a field of a kind adds to the map, if it is there.
fn flag(kind: Kind, there: bool) -> u16
    ensures { result ≡ (if there then 2 ^ bit_of kind else 0) }
{
    if there { 1 << kind.bit() } else { 0 }
}

// The map of an entry.
pub(crate) fn map_of(e: Entry<&[u8]>) -> u16
    ensures { result ≡ item_map (item_of e.entry) }
{
    flag(Kind::Code, true)
        + flag(Kind::Parent, e.parent.is_some())
        + flag(Kind::Count, true)
        + flag(Kind::Landing, e.landing.is_some())
        + flag(Kind::Months, e.months.is_some())
        + flag(Kind::Drawing, e.drawing.is_some())
}
