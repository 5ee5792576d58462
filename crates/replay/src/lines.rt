//! The lines of a written session. A line is a word and what it takes, bytes in hexadecimal:
//!
//!     suite NUMBER      which suite
//!     key BYTES         fills the key place
//!     header BYTES      a header call
//!     seal | open       the start of the body
//!     body ROOM BYTES   a body call that offers room for ROOM bytes
//!     finish            the end of a sealing
//!     finish BYTES      the end of an opening, with the tag
ghost use Rattle.std.specs.Prelude.{◌≡◌, ◌^◌, Some};
ghost use Rattle.replay.specs.declared.lines.Unread.TheVariants.{Memory};
ghost use Rattle.replay.specs.Lines as lines;

use hex::{FromHexError, decode};
use std::alloc::{AllocFailed, Global};
use std::fmt;

/// The rule that a line breaks.
#[derive(Clone, Copy, Debug, PartialEq, Eq)]
pub enum Rule {
    /// It begins with none of the words.
    Word,
    /// The suite's number is none from 0 to 255.
    Suite,
    /// The room of a body call is no number below 2^32.
    Room,
    /// The bytes are no pairs of hexadecimal digits.
    Digits,
    /// Something follows `seal` or `open`.
    Alone,
    /// A suite or a key after a call.
    Late,
    /// A header call or a start after the start of the body.
    Started,
    /// A body call or a finish outside a body.
    NoBody,
    /// The finish of a sealing has bytes.
    Tag,
}

/// Why a line was not taken.
#[derive(Drop)]
pub enum Unread {
    /// It breaks a rule.
    Broken(Rule),
    /// Memory ran out.
    Memory,
}

impl<T: Drop> From<AllocFailed<T>> for Unread {
    ghost from_gives = { λ _ e. e ≡ Memory };

    fn from(_: AllocFailed<T>) -> Unread {
        Unread::Memory
    }
}

/// The bytes of a body call, and its room in bytes.
#[derive(Drop)]
pub struct Piece {
    pub bytes: Vec<u8>,
    pub room: usize,
}

/// What a line says.
#[derive(Drop)]
pub enum Line {
    Suite(u8),
    Key(Vec<u8>),
    Header(Vec<u8>),
    Seal,
    Open,
    Body(Piece),
    Finish(Vec<u8>),
}

impl Line {
    /// Reads one line.
    ///
    /// # Errors
    ///
    /// The rule that it breaks, or that memory ran out.
    pub(crate) fn read(heap: Global, text: &str) -> Result<Line, Unread>
        ensures { lines.Reads lines.said_in result (lines.said_by text.now) }
    {
        let (word, rest) = cut(text);
        match word {
            "suite" => read_suite(rest),
            "key" => Ok(Line::Key(read_bytes(heap, rest)?)),
            "header" => Ok(Line::Header(read_bytes(heap, rest)?)),
            "seal" => alone(rest, Line::Seal),
            "open" => alone(rest, Line::Open),
            "body" => Ok(Line::Body(read_piece(heap, rest)?)),
            "finish" => Ok(Line::Finish(read_bytes(heap, rest)?)),
            _ => Err(Unread::Broken(Rule::Word)),
        }
    }
}

// The text before the first space, and what follows that space.
fn cut(text: &str) -> (&str, &str)
    ensures { (result.0.now ≡ lines.word_of text.now) × (result.1.now ≡ lines.rest_of text.now) }
{
    text.split_once(' ').unwrap_or((text, ""))
}

fn read_bytes(heap: Global, text: &str) -> Result<Vec<u8>, Unread>
    ensures { lines.Reads (λ v. v.items) result (lines.bytes_of text.now) }
{
    match decode(heap, text) {
        Ok(bytes) => Ok(bytes),
        Err(FromHexError::OutOfMemory) => Err(Unread::Memory),
        Err(_) => Err(Unread::Broken(Rule::Digits)),
    }
}

fn read_suite(text: &str) -> Result<Line, Unread>
    ensures { lines.Reads lines.said_in result (lines.suite_said text.now) }
{
    match text.parse::<u8>() {
        Ok(number) => Ok(Line::Suite(number)),
        Err(_) => Err(Unread::Broken(Rule::Suite)),
    }
}

// A word that takes nothing.
fn alone(rest: &str, line: Line) -> Result<Line, Unread>
    ensures { lines.Reads lines.said_in result (lines.alone rest.now (lines.said_in line)) }
{
    if rest.is_empty() {
        Ok(line)
    } else {
        Err(Unread::Broken(Rule::Alone))
    }
}

fn read_room(text: &str) -> Result<usize, Unread>
    ensures { lines.Reads (λ n. n) result (lines.room_of text.now) }
{
    match text.parse::<u32>() {
        // a `u32` has no `From` to a `usize`
        Ok(number) => Ok(number as usize),
        Err(_) => Err(Unread::Broken(Rule::Room)),
    }
}

fn read_piece(heap: Global, rest: &str) -> Result<Piece, Unread>
    ensures { lines.Reads lines.brought_in result (lines.brought rest.now) }
{
    let (number, text) = cut(rest);
    let room = read_room(number)?;
    let bytes = read_bytes(heap, text)?;
    Ok(Piece { bytes, room })
}
