//! What a call for whole buffers tests before it takes anything.
ghost use Rattle.std.specs.Prelude.{◌≡◌, IfOk, None};
ghost use Rattle.fault.specs.Refusals.{RefusedBy, session_faults};
ghost use Rattle.session.specs.Calls.{body_checks, tag_check};

use fault::{Placed, SessionFault};

// The most bytes that a header has.
pub(crate) const HEADER_MOST: usize = 65536;

// The most bytes that a body has.
pub(crate) const BODY_MOST: usize = 1048576;

// Whether header, body and room pass; `room` is the number of bytes that the caller's buffer has.
pub(crate) fn checked(header: &[u8], body: &[u8], room: usize) -> Result<(), Placed<SessionFault>>
    ensures { RefusedBy session_faults (body_checks header.now body.now room None) result }
{
    if header.len() > HEADER_MOST {
        return Err(Placed {
            fault: SessionFault::Header,
            place: 0,
        });
    }
    if body.len() > BODY_MOST {
        return Err(Placed {
            fault: SessionFault::Body,
            place: 0,
        });
    }
    if room < body.len() {
        return Err(Placed {
            fault: SessionFault::Room,
            place: 0,
        });
    }
    if body.is_empty() {
        return Err(Placed {
            fault: SessionFault::Empty,
            place: 0,
        });
    }
    Ok(())
}

// The tag, if it has sixteen bytes; `place` is the place of a refusal.
pub(crate) fn tag_bytes(tag: &[u8], place: usize) -> Result<[u8; 16], Placed<SessionFault>>
    ensures refused { RefusedBy session_faults (tag_check tag.now place) result }
    ensures same { IfOk result (λ t. t ≡ tag.now) }
{
    <[u8; 16]>::try_from(tag).map_err(|_| Placed {
        fault: SessionFault::Tag,
        place,
    })
}
