//! One message, sealed and opened under a suite that is told by its number.
ghost use Rattle.std.specs.Prelude.{IfSome, OnErr, OnOk, Some};
ghost use Rattle.delivery.specs.Told.{suite_of};
ghost use Rattle.roundtrip.specs.Trips as trips;

use buffer::Buffer;
use delivery::{open, seal};
use fault::{Placed, SessionFault};
use hexits::Hex;
use std::io::Write;
use std::{fmt, io};
use streams::put;
use suites::listed::{MIRROR, POET_AES_FOUR, POET_AES_TEN, SHAFT, SHAFT_PADDED, SHAFT_SPECK};

const KEY: [u8; 16] = [0x2a; 16];

const LABEL: &[u8] = b"lift 7, parts sheet 1";

const MESSAGE: &[u8] = b"two door rollers, one guide shoe";

const LEN: usize = 32;

// Room for the text, which has 130 bytes, and 377 for each suite.
const TEXT_LIMIT: usize = 4096;

/// Writes the label, the message, and what comes of it under each listed suite, all at once.
///
/// # Errors
///
/// What the writer fails with. Some first bytes of the text are written then, or none.
pub(crate) fn run<W: Write>(writer: &mut W) -> io::Result<()>
    ensures ran { OnOk result (trips.Ran (W.contents writer.old) (W.contents writer.new)) }
    ensures failed { OnErr result
        (trips.RanInPart (W.contents writer.old) (W.contents writer.new)) }
{
    let label = Hex(LABEL);
    let message = Hex(MESSAGE);
    let shaft = Trip::under(SHAFT);
    let four = Trip::under(POET_AES_FOUR);
    let ten = Trip::under(POET_AES_TEN);
    let mirror = Trip::under(MIRROR);
    let padded = Trip::under(SHAFT_PADDED);
    let speck = Trip::under(SHAFT_SPECK);
    let mut text = Buffer::<TEXT_LIMIT>::new();
    write!(
        text,
        "label      {label}
message    {message}
{shaft}{four}{ten}{mirror}{padded}{speck}"
    )?;
    put(writer, text.as_slice())
}

// What a call answered, under a word for its success.
#[derive(Clone, Copy)]
struct Answer<'a> {
    word: &'a str,
    answer: Result<usize, Placed<SessionFault>>,
}

impl fmt::Display for Answer<'_> {
    ghost output = { λ a. Some (trips.answer_text a.word.now a.answer) };

    fn fmt<W: fmt::Write>(&self, f: &mut fmt::Formatter<W>) -> fmt::Result {
        let word = self.word;
        match &self.answer {
            Ok(n) => write!(f, "{word}: {n} bytes"),
            Err(fault) => write!(f, "{fault}"),
        }
    }
}

/// What an opening answered, and what is in its buffer then.
#[derive(Clone, Copy)]
struct Opening {
    answer: Result<usize, Placed<SessionFault>>,
    buffer: [u8; LEN],
}

impl fmt::Display for Opening {
    ghost output = { λ o. Some (trips.opening_text o) };

    fn fmt<W: fmt::Write>(&self, f: &mut fmt::Formatter<W>) -> fmt::Result {
        let answer = Answer {
            word: "opened",
            answer: self.answer,
        };
        let buffer = Hex(&self.buffer);
        writeln!(f, "{answer}")?;
        writeln!(f, "buffer     {buffer}")
    }
}

/// A message that was sealed, opened again, and opened with the last bit of the tag turned.
#[derive(Clone, Copy)]
struct Trip {
    suite: u8,
    sealed: Result<usize, Placed<SessionFault>>,
    ciphertext: [u8; LEN],
    tag: [u8; 16],
    opened: Opening,
    turned: Opening,
}

impl fmt::Display for Trip {
    ghost output = { λ t. Some (trips.trip_text t) };

    fn fmt<W: fmt::Write>(&self, f: &mut fmt::Formatter<W>) -> fmt::Result {
        let suite = self.suite;
        let sealed = Answer {
            word: "sealed",
            answer: self.sealed,
        };
        let ciphertext = Hex(&self.ciphertext);
        let tag = Hex(&self.tag);
        let opened = self.opened;
        let turned = self.turned;
        write!(
            f,
            "suite {suite}
{sealed}
ciphertext {ciphertext}
tag        {tag}
{opened}the tag's last bit turned
{turned}"
        )
    }
}

impl Trip {
    /// Seals the message under the suite with this number, opens it, and opens it again with the
    /// last bit of the tag turned.
    pub(crate) fn under(suite: u8) -> Trip
        ensures { IfSome (suite_of suite) (λ under.
            trips.Tripped (under trips.key) suite result) }
    {
        let mut ciphertext = [0; LEN];
        let mut tag = [0; 16];
        let sealed = seal(suite, &KEY, LABEL, MESSAGE, &mut ciphertext, &mut tag);
        let opened = unseal(suite, &ciphertext, &tag);
        let mut other = tag;
        other[15] ^= 1;
        let turned = unseal(suite, &ciphertext, &other);
        Trip {
            suite,
            sealed,
            ciphertext,
            tag,
            opened,
            turned,
        }
    }
}

// Opens into a buffer that is full of set bits.
fn unseal(suite: u8, ciphertext: &[u8; LEN], tag: &[u8; 16]) -> Opening
    ensures { IfSome (suite_of suite) (λ under.
        trips.Opens (under trips.key) ciphertext.now tag.now result) }
{
    let mut buffer = [0xff; LEN];
    let answer = open(suite, &KEY, LABEL, ciphertext, tag, &mut buffer);
    Opening { answer, buffer }
}
