//! The table of an entry's fields: a row for each bit of its map.
ghost use Rattle.std.specs.Prelude.{◌≡◌, ◌<◌};
ghost use Rattle.sheet.specs.Table.{bit_of, in_row, row_of};

use crate::entry::Kind;

// Whether a bit must be set, may be set, or may not.
#[derive(Clone, Copy, PartialEq, Eq)]
pub(crate) enum Need {
    Required,
    Allowed,
    Unknown,
}

// A field: its width in bytes, the lowest and highest number in it, and whether its bit is set. A
// code has no ends; a drawing's row is that of its length.
#[derive(Clone, Copy)]
pub(crate) struct Row {
    pub width: usize,
    pub low: i32,
    pub high: i32,
    pub need: Need,
}

const UNKNOWN: Row = Row {
    width: 0,
    low: 0,
    high: 0,
    need: Need::Unknown,
};

const ROWS: [Row; 16] = [
    // code
    Row {
        width: 8,
        low: 0,
        high: 0,
        need: Need::Required,
    },
    // parent's code
    Row {
        width: 8,
        low: 0,
        high: 0,
        need: Need::Allowed,
    },
    // count
    Row {
        width: 2,
        low: 1,
        high: 9999,
        need: Need::Required,
    },
    // landing
    Row {
        width: 1,
        low: -5,
        high: 40,
        need: Need::Allowed,
    },
    // months between changes
    Row {
        width: 2,
        low: 1,
        high: 600,
        need: Need::Allowed,
    },
    // drawing: its length
    Row {
        width: 1,
        low: 1,
        high: 32,
        need: Need::Allowed,
    },
    UNKNOWN,
    UNKNOWN,
    UNKNOWN,
    UNKNOWN,
    UNKNOWN,
    UNKNOWN,
    UNKNOWN,
    UNKNOWN,
    UNKNOWN,
    UNKNOWN,
];

// The row of a bit: by number, as ten of the sixteen bits are of no kind.
#[tactic(auto, unfolding(crate::specs::Table::row_of))]
pub(crate) fn row_at(k: usize) -> Row
    requires { k < 16 }
    ensures { result ≡ row_of k }
{
    ROWS[k]
}

impl Kind {
    // The number of its bit.
    pub(crate) fn bit(self) -> usize
        ensures { result ≡ bit_of self }
    {
        self as usize
    }

    // Its row of the table.
    #[tactic(auto, unfolding(crate::specs::Table::row_of))]
    pub(crate) fn row(self) -> Row
        ensures { result ≡ row_of (bit_of self) }
    {
        row_at(self.bit())
    }

    // Whether z lies between the ends of its row.
    pub(crate) fn admits(self, z: i32) -> bool
        ensures { result ≡ in_row (bit_of self) z }
    {
        let row = self.row();
        row.low <= z && z <= row.high
    }
}
