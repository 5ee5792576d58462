//! A written session: its calls, from new on.

/// The bytes that a header call brings, or a body call, with the room in bytes that this offers.
#[derive(Clone, Copy)]
pub struct Stretch<'a> {
    pub bytes: &'a [u8],
    pub room: usize,
}

/// What follows the header calls: nothing, or a start, body calls, and perhaps a finish. Every
/// value is a legal order of calls.
#[derive(Clone, Copy)]
pub enum Course<'a> {
    /// No start.
    Heading,
    /// A sealing, finished or not.
    Seal {
        bodies: &'a [Stretch<'a>],
        finish: bool,
    },
    /// An opening, and the tag of its finish if it has one.
    Open {
        bodies: &'a [Stretch<'a>],
        tag: Option<&'a [u8]>,
    },
}
