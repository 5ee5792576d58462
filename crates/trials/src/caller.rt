//! A caller's program: one message sealed by a session in a single stretch. The compiler refuses it
//! once it adds header bytes after the start, or asks a finished session for a second tag
//! (docs/REFUSALS.md).
use fault::{Placed, SessionFault};
use session::{Heading, KeyPlace};
use suite::Suite;

pub(crate) fn seal_once<S: Suite>(
    place: &KeyPlace,
    header: &[u8],
    message: &[u8],
    out: &mut [u8],
    last: &mut [u8; 16],
    tag: &mut [u8; 16],
) -> Result<(usize, usize), Placed<SessionFault>> {
    let mut heading = Heading::<S>::new(place);
    heading.header(header)?;
    let mut sealing = heading.seal();
    let (given, _) = sealing.body(message, out)?;
    let rest = sealing.finish(last, tag)?;
    Ok((given, rest))
}
