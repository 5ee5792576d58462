//! The input, line by line: no more of it is held than one line, beside what the lines wrote.
ghost use Rattle.std.specs.Prelude.{◌≡◌, ◌<◌, ◌∷◌, [], List, ℕ, length, IfOk, OnErr};
ghost use Rattle.std.specs.Io.{StopsAt};
ghost use Rattle.std.specs.Io.BufRead.{ends_with_byte};
ghost use Rattle.std.specs.Io.KnownBytes.{Consumes};
ghost use Rattle.std.specs.Str.Lines.{lines};
ghost use Rattle.replay.specs.Scripts.{written_in};
ghost use Rattle.replay.specs.Outcomes as outcomes;
ghost use Rattle.replay.specs.Runs.{ReadsLine, ReadsThrough};

use crate::lines::Unread;
use crate::report::Outcome;
use crate::written::Script;
use std::alloc::{AllocError, Global};
use std::io;
use std::io::{BufRead, ErrorKind};
use std::str::from_utf8;

/// Reads a session to the end of the input; or no further than through the first line that is no
/// UTF-8 or breaks a rule, and answers what that line comes to.
///
/// # Errors
///
/// What the reader fails with, or that memory ran out; or that time is out, after more lines than
/// any input has.
pub(crate) fn read_script<R: BufRead>(
    heap: Global,
    reader: &mut R,
) -> anyhow::Result<Result<Script, Outcome>>
    ensures read { IfOk result (λ r. ReadsThrough (R.remaining reader.old) (R.remaining reader.new)
        (λ input. outcomes.written_by input ≡ outcomes.written_or r)) }
    ensures failed { OnErr result ((bytes : List ℕ)
        × Consumes (R.remaining reader.old) (R.remaining reader.new) bytes) }
{
    let mut script = Script::new(heap);
    for before in 0..usize::MAX {
        let line = next_line(heap, reader)?;
        if line.is_empty() {
            return Ok(Ok(script));
        }
        let (text, ended) = cut_end(line.as_slice());
        if let Err(outcome) = take_line(heap, &mut script, before + 1, text)? {
            return Ok(Err(outcome));
        }
        if !ended {
            return Ok(Ok(script));
        }
    }
    Err(io::Error::from(ErrorKind::TimedOut).into())
}

// The next line with its end; an empty one behind the last.
fn next_line<R: BufRead>(heap: Global, reader: &mut R) -> io::Result<Vec<u8>>
    ensures read { IfOk result (λ line.
        ReadsLine (R.remaining reader.old) (R.remaining reader.new) line.items) }
    ensures failed { OnErr result ((bytes : List ℕ)
        × Consumes (R.remaining reader.old) (R.remaining reader.new) bytes) }
{
    let mut line = Vec::new(heap);
    reader.read_until(b'\n', &mut line)?;
    Ok(line)
}

// The text of a line, and whether the line had an end.
fn cut_end(line: &[u8]) -> (&[u8], bool)
    ensures ended { result.1 ≡ ends_with_byte 10 line.now }
    ensures text { StopsAt line.now 10 → 0 < length line.now
        → lines line.now ≡ result.0.now ∷ [] }
{
    let Some((last, text)) = line.split_last() else {
        return (line, false);
    };
    if *last != b'\n' {
        return (line, false);
    }
    let Some((last, before)) = text.split_last() else {
        return (text, true);
    };
    if *last == b'\r' {
        (before, true)
    } else {
        (text, true)
    }
}

// Takes a line by its number, or answers what it comes to.
fn take_line(
    heap: Global,
    script: &mut Script,
    number: usize,
    line: &[u8],
) -> Result<Result<(), Outcome>, AllocError>
    ensures { IfOk result (λ r.
        outcomes.line_read number (written_in script.old) line.now
        ≡ outcomes.read_as r (written_in script.new)) }
{
    let Ok(text) = from_utf8(line) else {
        return Ok(Err(Outcome::NoText));
    };
    match script.add(heap, text) {
        Ok(()) => Ok(Ok(())),
        Err(Unread::Broken(rule)) => Ok(Err(Outcome::Broken { line: number, rule })),
        Err(Unread::Memory) => Err(AllocError),
    }
}
