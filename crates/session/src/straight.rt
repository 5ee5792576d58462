//! One session from beginning to end over whole buffers, whose lengths are checked before.
ghost use Rattle.std.specs.Prelude.{◌≤◌, length};
ghost use Rattle.poet.specs.Seal.{body_most, header_most};
ghost use Rattle.session.specs.Straight.{BegunBy, OpenRun, SealRun};

use crate::body::Session;
use crate::heading::Heading;
use crate::keys::KeyPlace;
use crate::rows::{Open, Seal, Way};
use fault::{Placed, SessionFault};
use suite::Suite;

// The header and the body, of which neither is refused: the session before its finish, and how many
// bytes the body call wrote.
fn begun<S: Suite, W: Way>(
    place: &KeyPlace,
    header: &[u8],
    body: &[u8],
    out: &mut [u8],
) -> Result<(Session<S, W>, usize), Placed<SessionFault>>
    requires header { length header.now ≤ header_most }
    requires most { length body.now ≤ body_most }
    requires room { length body.now ≤ length out.old }
    ensures { BegunBy place.now.bytes header.now body.now out.old out.new result }
{
    let mut heading = Heading::<S>::new(place);
    heading.header(header)?;
    let mut session = heading.start::<W>();
    let (written, _) = session.body(body, out)?;
    Ok((session, written))
}

// Seals: the ciphertext goes to the front of `out`.
pub(crate) fn seal_straight<S: Suite>(
    place: &KeyPlace,
    header: &[u8],
    message: &[u8],
    out: &mut [u8],
    tag: &mut [u8; 16],
) -> Result<(), Placed<SessionFault>>
    requires header { length header.now ≤ header_most }
    requires some { 1 ≤ length message.now }
    requires most { length message.now ≤ body_most }
    requires room { length message.now ≤ length out.old }
    ensures { SealRun (S.Suite.under place.now.bytes)
        header.now message.now out.old out.new tag.new result }
{
    let (sealing, written) = begun::<S, Seal>(place, header, message, out)?;
    let mut last = [0; 16];
    let len = sealing.finish(&mut last, tag)?;
    out[written..written + len].copy_from_slice(&last[..len]);
    Ok(())
}

// Opens: the message goes to the front of `out`. Apart from sealing, as the two finishes differ in
// what they take and write.
pub(crate) fn open_straight<S: Suite>(
    place: &KeyPlace,
    header: &[u8],
    ciphertext: &[u8],
    tag: &[u8; 16],
    out: &mut [u8],
) -> Result<(), Placed<SessionFault>>
    requires header { length header.now ≤ header_most }
    requires some { 1 ≤ length ciphertext.now }
    requires most { length ciphertext.now ≤ body_most }
    requires room { length ciphertext.now ≤ length out.old }
    ensures { OpenRun (S.Suite.under place.now.bytes)
        header.now ciphertext.now tag.now out.old out.new result }
{
    let (opening, written) = begun::<S, Open>(place, header, ciphertext, out)?;
    let mut last = [0; 16];
    let len = opening.finish(tag, &mut last)?;
    out[written..written + len].copy_from_slice(&last[..len]);
    Ok(())
}
