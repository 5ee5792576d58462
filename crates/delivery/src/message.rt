//! Sealing and opening of whole buffers under a suite that is told by its number. A number that is
//! not listed is refused before every other check.
ghost use Rattle.std.specs.Prelude.{◌≡◌, IfNone, IfSome};
ghost use Rattle.fault.specs.Refusals.{Refuses, session_faults};
ghost use Rattle.session.specs.Calls.{OpenCall, SealCall};
ghost use Rattle.delivery.specs.Told.{not_listed, suite_of};

use fault::{Placed, SessionFault};
use suite::Suite;
use suites::{Listed, at_listed};

/// Seals as `session::seal` does, under the suite with the number `suite`.
///
/// # Errors
///
/// 2 before all else for a number that is not listed, at that number; the buffers are then
/// unaltered. Else the refusals of `session::seal`.
pub fn seal(
    suite: u8,
    key: &[u8],
    header: &[u8],
    message: &[u8],
    out: &mut [u8],
    tag: &mut [u8; 16],
) -> Result<usize, Placed<SessionFault>>
    ensures unlisted { IfNone (suite_of suite)
        (Refuses session_faults (not_listed suite) result
        × (out.new ≡ out.old) × (tag.new ≡ tag.old)) }
    ensures listed { IfSome (suite_of suite) (λ under. SealCall under
        key.now header.now message.now out.old tag.old out.new tag.new result) }
{
    let listed = Listed::try_from(suite)?;
    at_listed!(listed, sealed(key, header, message, out, tag))
}

/// Opens as `session::open` does, under the suite with the number `suite`.
///
/// # Errors
///
/// 2 before all else for a number that is not listed, at that number; the buffer is then unaltered.
/// Else the refusals of `session::open`.
pub fn open(
    suite: u8,
    key: &[u8],
    header: &[u8],
    ciphertext: &[u8],
    tag: &[u8],
    out: &mut [u8],
) -> Result<usize, Placed<SessionFault>>
    ensures unlisted { IfNone (suite_of suite)
        (Refuses session_faults (not_listed suite) result × (out.new ≡ out.old)) }
    ensures listed { IfSome (suite_of suite) (λ under. OpenCall under
        key.now header.now ciphertext.now tag.now out.old out.new result) }
{
    let listed = Listed::try_from(suite)?;
    at_listed!(listed, opened(key, header, ciphertext, tag, out))
}

// The same under a suite that is a type. All that its call says is one fact here, which the calls
// above hand on.
fn sealed<S: Suite>(
    key: &[u8],
    header: &[u8],
    message: &[u8],
    out: &mut [u8],
    tag: &mut [u8; 16],
) -> Result<usize, Placed<SessionFault>>
    ensures { SealCall S.Suite.under
        key.now header.now message.now out.old tag.old out.new tag.new result }
{
    session::seal::<S>(key, header, message, out, tag)
}

fn opened<S: Suite>(
    key: &[u8],
    header: &[u8],
    ciphertext: &[u8],
    tag: &[u8],
    out: &mut [u8],
) -> Result<usize, Placed<SessionFault>>
    ensures { OpenCall S.Suite.under
        key.now header.now ciphertext.now tag.now out.old out.new result }
{
    session::open::<S>(key, header, ciphertext, tag, out)
}
