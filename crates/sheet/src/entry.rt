//! One entry, its fields, and their kinds. T holds the text of a code or a drawing: a part of the
//! sheet or of what the caller lends, or a copy.

/// One entry of a parts sheet: a part, and where and how often it is needed.
#[derive(Clone, Copy, PartialEq, Eq)]
pub struct Entry<T> {
    /// The part's code: eight capital letters or digits.
    pub code: T,
    /// The code of the part that it belongs to.
    pub parent: Option<T>,
    /// How many pieces, 1 to 9,999.
    pub count: u16,
    /// The landing, -5 to 40.
    pub landing: Option<i8>,
    /// The months between changes, 1 to 600.
    pub months: Option<u16>,
    /// The drawing: 1 to 32 capital letters, digits or slashes.
    pub drawing: Option<T>,
}

/// One field of an entry.
#[derive(Clone, Copy, PartialEq, Eq)]
pub enum Field<T> {
    Code(T),
    Parent(T),
    Count(u16),
    Landing(i8),
    Months(u16),
    Drawing(T),
}

/// The kinds of fields, in the order of their bits in the map.
#[derive(Clone, Copy, PartialEq, Eq)]
pub enum Kind {
    Code,
    Parent,
    Count,
    Landing,
    Months,
    Drawing,
}
