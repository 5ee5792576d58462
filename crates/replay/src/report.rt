//! What comes of an input, and its text.
ghost use Rattle.std.specs.Prelude.{[], ◌++◌, ◌≤◌, length, Some};
ghost use Rattle.hex.specs.Hex.{encode_lower};
ghost use Rattle.replay.specs.Texts as texts;
ghost use Rattle.streams.specs.Streams.{Wrote};

use crate::lines::Rule;
use fault::{KeyFault, Placed};
use hex::encode_to_slice;
use hexits::Hex;
use script::{Answer, End, Played};
use std::alloc::Global;
use std::fmt;
use std::io::Write;
use streams::put;

// How many bytes are written as digits in one piece.
const PIECE: usize = 4096;

/// What comes of an input.
#[derive(Drop)]
pub enum Outcome {
    /// A line is no UTF-8.
    NoText,
    /// A line breaks a rule. The first line is line 1.
    Broken { line: usize, rule: Rule },
    /// The suite or the key is refused; no call was made.
    Refused(Placed<KeyFault>),
    /// The session was played.
    Played(Played, End),
}

impl fmt::Display for Rule {
    ghost output = { λ r. Some (texts.rule_text r) };

    fn fmt<W: fmt::Write>(&self, f: &mut fmt::Formatter<W>) -> fmt::Result {
        let rule = match self {
            Rule::Word => "a line begins with suite, key, header, seal, open, body or finish",
            Rule::Suite => "suite takes a number from 0 to 255",
            Rule::Room => "body takes its room in bytes, and then the bytes",
            Rule::Digits => "bytes are pairs of hexadecimal digits",
            Rule::Alone => "seal and open take nothing",
            Rule::Late => "suite and key stand before every call",
            Rule::Started => "header, seal and open stand before the body has started",
            Rule::NoBody => "body and finish stand between the body's start and its finish",
            Rule::Tag => "the finish of a sealing takes no bytes",
        };
        write!(f, "{rule}")
    }
}

// `Answer` and `End` are another crate's, and the words are this program's.
#[derive(Clone, Copy)]
struct AnswerLine<'a>(&'a Answer);

impl fmt::Display for AnswerLine<'_> {
    ghost output = { λ a. Some (texts.line (texts.answer_text a.0.now) []) };

    fn fmt<W: fmt::Write>(&self, f: &mut fmt::Formatter<W>) -> fmt::Result {
        match self.0 {
            Answer::Header(Ok(())) => writeln!(f, "header: taken"),
            Answer::Header(Err(fault)) => writeln!(f, "header: {fault}"),
            Answer::Body(Ok((given, held))) => writeln!(f, "body: given {given}, held {held}"),
            Answer::Body(Err(fault)) => writeln!(f, "body: {fault}"),
            Answer::Finish(Ok(last)) => writeln!(f, "finish: accepted, last {last}"),
            Answer::Finish(Err(fault)) => writeln!(f, "finish: {fault}"),
        }
    }
}

#[derive(Clone, Copy)]
struct AnswerLines<'a>(&'a [Answer]);

impl fmt::Display for AnswerLines<'_> {
    ghost output = { λ a. Some (texts.answers_text a.0.now) };

    fn fmt<W: fmt::Write>(&self, f: &mut fmt::Formatter<W>) -> fmt::Result {
        for answer in self.0 {
            let line = AnswerLine(answer);
            write!(f, "{line}")?;
        }
        Ok(())
    }
}

#[derive(Clone, Copy)]
struct EndLine<'a>(&'a End);

impl fmt::Display for EndLine<'_> {
    ghost output = { λ e. Some (texts.line (texts.end_text e.0.now) []) };

    fn fmt<W: fmt::Write>(&self, f: &mut fmt::Formatter<W>) -> fmt::Result {
        match self.0 {
            End::Unfinished => writeln!(f, "given up before a finish"),
            End::Sealed { last: _, tag } => {
                let tag = Hex(tag);
                writeln!(f, "tag:          {tag}")
            }
            End::Opened { last } => {
                let last = Hex(last);
                writeln!(f, "last place:   {last}")
            }
        }
    }
}

impl Outcome {
    /// Writes the text of what came of an input.
    ///
    /// # Errors
    ///
    /// That memory ran out, and then nothing is written; or what the writer fails with, and then a
    /// front of the text is written.
    pub(crate) fn write<W: Write>(&self, heap: Global, writer: &mut W) -> anyhow::Result<()>
        ensures { Wrote (W.contents writer.old) (W.contents writer.new)
            (texts.outcome_text self.now) result }
    {
        match self {
            Outcome::NoText => write_text(writer, "the input is no UTF-8 text\n"),
            Outcome::Broken { line, rule } => {
                let text = format!(in heap; "line {line}: {rule}\n")?;
                write_text(writer, text.as_str())
            }
            Outcome::Refused(fault) => {
                let text = format!(in heap; "{fault}\n")?;
                write_text(writer, text.as_str())
            }
            Outcome::Played(log, end) => write_session(heap, log, end, writer),
        }
    }
}

fn write_text<W: Write>(writer: &mut W, text: &str) -> anyhow::Result<()>
    ensures { Wrote (W.contents writer.old) (W.contents writer.new) text.now result }
{
    put(writer, text.as_bytes())?;
    Ok(())
}

// What needs the heap is made before anything is written. The digits do not.
fn write_session<W: Write>(
    heap: Global,
    log: &Played,
    end: &End,
    writer: &mut W,
) -> anyhow::Result<()>
    ensures { Wrote (W.contents writer.old) (W.contents writer.new)
        (texts.session_text log.now end.now) result }
{
    let answers = AnswerLines(log.answers.as_slice());
    let end = EndLine(end);
    let head = format!(in heap; "{answers}header taken: ")?;
    let tail = format!(in heap; "\n{end}")?;
    write_titled(writer, head.as_str(), log.header.as_slice())?;
    write_titled(writer, "\nbody taken:   ", log.body.as_slice())?;
    write_titled(writer, "\nhanded out:   ", log.out.as_slice())?;
    write_text(writer, tail.as_str())
}

fn write_titled<W: Write>(writer: &mut W, title: &str, bytes: &[u8]) -> anyhow::Result<()>
    ensures { Wrote (W.contents writer.old) (W.contents writer.new)
        (title.now ++ encode_lower bytes.now) result }
{
    write_text(writer, title)?;
    write_digits(writer, bytes)
}

// Bytes in hexadecimal, a piece at a time.
fn write_digits<W: Write>(writer: &mut W, bytes: &[u8]) -> anyhow::Result<()>
    ensures { Wrote (W.contents writer.old) (W.contents writer.new)
        (encode_lower bytes.now) result }
{
    let mut rest = bytes;
    while !rest.is_empty() {
        let (piece, more) = rest.split_at(rest.len().min(PIECE));
        write_piece(writer, piece)?;
        rest = more;
    }
    Ok(())
}

fn write_piece<W: Write>(writer: &mut W, piece: &[u8]) -> anyhow::Result<()>
    requires { length piece.now ≤ PIECE }
    ensures { Wrote (W.contents writer.old) (W.contents writer.new)
        (encode_lower piece.now) result }
{
    let mut room = [0u8; 2 * PIECE];
    let digits = &mut room[..2 * piece.len()];
    encode_to_slice(piece, digits)?;
    put(writer, digits)?;
    Ok(())
}
