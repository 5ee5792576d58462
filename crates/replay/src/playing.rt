//! From an input to what is written for it.
ghost use Rattle.std.specs.Prelude.{◌≡◌, ℕ, List, map, IfOk, OnErr, vec_items};
ghost use Rattle.std.specs.Io.KnownBytes.{Consumes};
ghost use Rattle.std.specs.Option.{option_map};
ghost use Rattle.session.specs.Calls.{key_check};
ghost use Rattle.replay.specs.Lines.{brought_in};
ghost use Rattle.replay.specs.Scripts.{course_in, written_in};
ghost use Rattle.replay.specs.Outcomes as outcomes;
ghost use Rattle.replay.specs.Runs.{Decides, Ran};
ghost use Rattle.suites.specs.Listed.{listed};

use crate::input::read_script;
use crate::lines::Piece;
use crate::report::Outcome;
use crate::written::{Body, Script};
use script::{Course, Stretch, play};
use session::KeyPlace;
use std::alloc::{AllocError, Global};
use std::io::{BufRead, Write};
use suite::Suite;
use suites::{Listed, at_listed};

/// Reads the lines of a session, plays it, and writes what each call answered; or the number of the
/// first line that breaks a rule, and the rule, or that it is no UTF-8. What follows such a line is
/// not read. Nothing is written before the whole is played.
///
/// # Errors
///
/// What the reader fails with, or that memory ran out, and then nothing is written; or what the
/// writer fails with, and then a front of the text is written.
pub(crate) fn run<R: BufRead, W: Write>(
    heap: Global,
    reader: &mut R,
    writer: &mut W,
) -> anyhow::Result<()>
    ensures { Ran (R.remaining reader.old) (R.remaining reader.new)
        (W.contents writer.old) (W.contents writer.new) result }
{
    let outcome = outcome_of(heap, reader)?;
    outcome.write(heap, writer)
}

fn outcome_of<R: BufRead>(heap: Global, reader: &mut R) -> anyhow::Result<Outcome>
    ensures decides { IfOk result (λ o.
        Decides (R.remaining reader.old) (R.remaining reader.new) o) }
    ensures failed { OnErr result ((bytes : List ℕ)
        × Consumes (R.remaining reader.old) (R.remaining reader.new) bytes) }
{
    match read_script(heap, reader)? {
        Ok(script) => Ok(of_script(heap, &script)?),
        Err(outcome) => Ok(outcome),
    }
}

fn of_script(heap: Global, script: &Script) -> Result<Outcome, AllocError>
    ensures { IfOk result (λ o. outcomes.ComesListed
        (listed script.now.suite) (written_in script.now) o) }
{
    match Listed::try_from(script.suite) {
        Ok(listed) => at_listed!(listed, under(heap, script)),
        Err(refused) => Ok(Outcome::Refused(refused)),
    }
}

// Fills the key place and plays the session.
fn under<S: Suite>(heap: Global, script: &Script) -> Result<Outcome, AllocError>
    ensures { IfOk result (λ o. outcomes.ComesUnder S.Suite.under
        (key_check script.now.key.items) (written_in script.now) o) }
{
    let mut place = KeyPlace::new();
    if let Err(refused) = place.fill(script.key.as_slice()) {
        return Ok(Outcome::Refused(refused));
    }
    let headers = headers_of(heap, script.headers.as_slice())?;
    let bodies = bodies_of(heap, pieces(&script.body))?;
    let course = course(&script.body, bodies.as_slice());
    let (log, end) = play::<S>(heap, &place, headers.as_slice(), course)?;
    Ok(Outcome::Played(log, end))
}

// A header call for each of these.
fn headers_of(heap: Global, headers: &[Vec<u8>]) -> Result<Vec<Stretch<'_>>, AllocError>
    ensures { IfOk result (λ v. map (λ s. s.bytes.now) v.items
        ≡ map (λ h. vec_items h) headers.now) }
{
    headers
        .iter()
        .map(|bytes| Stretch { bytes, room: 0 })
        .collect::<Vec<Stretch<'_>>>(heap)
}

// A body call for each of these.
fn bodies_of(heap: Global, pieces: &[Piece]) -> Result<Vec<Stretch<'_>>, AllocError>
    ensures { IfOk result (λ v. map outcomes.brought_by v.items
        ≡ map brought_in pieces.now) }
{
    pieces
        .iter()
        .map(|piece| Stretch {
            bytes: &piece.bytes,
            room: piece.room,
        })
        .collect::<Vec<Stretch<'_>>>(heap)
}

fn pieces(body: &Option<Body>) -> &[Piece]
    ensures { result.now ≡ outcomes.pieces_in body.now }
{
    match body {
        None => &[],
        Some(Body::Seal { pieces, .. } | Body::Open { pieces, .. }) => pieces.as_slice(),
    }
}

// The course with the body's calls.
fn course<'a>(body: &'a Option<Body>, bodies: &'a [Stretch<'a>]) -> Course<'a>
    ensures { map outcomes.brought_by bodies.now ≡ map brought_in (outcomes.pieces_in body.now)
        → outcomes.course_by result ≡ option_map course_in body.now }
{
    match body {
        None => Course::Heading,
        Some(Body::Seal { finish, .. }) => Course::Seal {
            bodies,
            finish: *finish,
        },
        Some(Body::Open { tag, .. }) => Course::Open {
            bodies,
            tag: tag.as_deref(),
        },
    }
}
