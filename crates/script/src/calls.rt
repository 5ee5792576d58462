//! The calls of a written session, one after another.
ghost use Rattle.std.specs.Prelude.{[], ◌∷◌, OnOk};
ghost use Rattle.script.specs.Playing.{BodyPlayed, HeaderPlayed};

use crate::course::Stretch;
use crate::played::Played;
use session::{Heading, Session, Way};
use std::alloc::{AllocError, Global};
use suite::Suite;

// One header call.
pub(crate) fn header_call<S: Suite>(
    heading: &mut Heading<S>,
    stretch: Stretch<'_>,
    log: &mut Played,
) -> Result<(), AllocError>
    ensures { OnOk result
        (HeaderPlayed (stretch.entry ∷ []) log.old log.new heading.old heading.new) }
{
    let answer = heading.header(stretch.bytes);
    log.keep_header(stretch.bytes, answer)
}

// Header calls, one after another.
pub(crate) fn header_calls<S: Suite>(
    heading: &mut Heading<S>,
    stretches: &[Stretch<'_>],
    log: &mut Played,
) -> Result<(), AllocError>
    ensures { OnOk result (HeaderPlayed stretches.now log.old log.new heading.old heading.new) }
{
    for stretch in stretches {
        header_call(heading, *stretch, log)?;
    }
    Ok(())
}

// One body call, into a buffer of its own.
fn body_call<S: Suite, W: Way>(
    heap: Global,
    session: &mut Session<S, W>,
    stretch: Stretch<'_>,
    log: &mut Played,
) -> Result<(), AllocError>
    ensures { OnOk result
        (BodyPlayed (stretch.entry ∷ []) log.old log.new session.old session.new) }
{
    let mut buffer = vec![in heap; 0; stretch.room]?;
    let answer = session.body(stretch.bytes, &mut buffer);
    log.keep_body(stretch.bytes, &buffer, answer)
}

// Body calls, one after another.
pub(crate) fn body_calls<S: Suite, W: Way>(
    heap: Global,
    session: &mut Session<S, W>,
    stretches: &[Stretch<'_>],
    log: &mut Played,
) -> Result<(), AllocError>
    ensures { OnOk result (BodyPlayed stretches.now log.old log.new session.old session.new) }
{
    for stretch in stretches {
        body_call(heap, session, *stretch, log)?;
    }
    Ok(())
}
