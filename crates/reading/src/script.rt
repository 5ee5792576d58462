//! The calls on a reader with their replies, and what opening a sheet and answering them comes to.
use fault::{Placed, SheetFault};
use sheet::{Entry, Field, Kind};

/// A call on a reader.
#[derive(Clone, Copy)]
pub enum Ask {
    /// For the following entry, or the sheet's end.
    Next,
    /// For a field of the entry last answered.
    Field(Kind),
}

/// What a call answered. Codes and drawings are the very parts of the sheet.
#[derive(Clone, Copy)]
pub enum Reply<'a> {
    /// An entry, or `None` at the sheet's end.
    Next(Result<Option<Entry<&'a [u8]>>, Placed<SheetFault>>),
    /// A field, or `None` where it is absent.
    Field(Option<Field<&'a [u8]>>),
}

/// A call, and the place for its reply, which is `None` until it is answered.
#[derive(Clone, Copy)]
pub struct Call<'a> {
    pub ask: Ask,
    pub reply: Option<Reply<'a>>,
}

/// What came of opening a sheet into a buffer and answering calls on it.
#[derive(Clone, Copy)]
pub struct Played<'a> {
    /// The caller's buffer, lent for reading as long as the replies are.
    pub buffer: &'a [u8],
    /// How many entries the sheet has, or why it was refused.
    pub outcome: Result<usize, Placed<SheetFault>>,
}
