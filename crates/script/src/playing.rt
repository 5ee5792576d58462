//! Plays a written session from new on: any legal list of calls.
ghost use Rattle.std.specs.Prelude.{IfOk};
ghost use Rattle.script.specs.Plays.{CoursePlayed, OpeningPlayed, SealingPlayed};

use crate::calls::{body_calls, header_calls};
use crate::course::{Course, Stretch};
use crate::played::{End, Played};
use session::{Heading, KeyPlace, Opening, Sealing};
use std::alloc::{AllocError, Global};
use suite::Suite;

/// Plays the header calls under the key in `place`, and then the course. Answers what was taken and
/// handed out, what each call answered, and what the finish wrote; or that memory ran out.
pub fn play<S: Suite>(
    heap: Global,
    place: &KeyPlace,
    headers: &[Stretch<'_>],
    course: Course<'_>,
) -> Result<(Played, End), AllocError>
    ensures { IfOk result (λ p. CoursePlayed course.entry
        S.Suite.under place.now.bytes headers.now p.0 p.1) }
{
    let mut log = Played::new(heap);
    let mut heading = Heading::<S>::new(place);
    header_calls(&mut heading, headers, &mut log)?;
    match course {
        Course::Heading => Ok((log, End::Unfinished)),
        Course::Seal { bodies, finish } => play_sealing(heap, heading.seal(), bodies, finish, log),
        Course::Open { bodies, tag } => play_opening(heap, heading.open(), bodies, tag, log),
    }
}

// The body calls and the end of a sealing, apart from those of an opening: their finishes differ in
// what they take, in what they write, and in what is promised of them.
fn play_sealing<S: Suite>(
    heap: Global,
    mut sealing: Sealing<S>,
    bodies: &[Stretch<'_>],
    finish: bool,
    mut log: Played,
) -> Result<(Played, End), AllocError>
    ensures { IfOk result (λ p. SealingPlayed bodies.now finish log p.0 p.1 sealing) }
{
    body_calls(heap, &mut sealing, bodies, &mut log)?;
    if !finish {
        return Ok((log, End::Unfinished));
    }
    let mut last = [0; 16];
    let mut tag = [0; 16];
    let answer = sealing.finish(&mut last, &mut tag);
    log.keep_finish(&last, answer)?;
    Ok((log, End::Sealed { last, tag }))
}

fn play_opening<S: Suite>(
    heap: Global,
    mut opening: Opening<S>,
    bodies: &[Stretch<'_>],
    tag: Option<&[u8]>,
    mut log: Played,
) -> Result<(Played, End), AllocError>
    ensures { IfOk result (λ p. OpeningPlayed bodies.now tag.entry log p.0 p.1 opening) }
{
    body_calls(heap, &mut opening, bodies, &mut log)?;
    let Some(tag) = tag else {
        return Ok((log, End::Unfinished));
    };
    let mut last = [0; 16];
    let answer = opening.finish(tag, &mut last);
    log.keep_finish(&last, answer)?;
    Ok((log, End::Opened { last }))
}
