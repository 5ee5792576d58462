//! The calls under the suite, each with the promise that it makes under every suite. None needs a
//! proof: the call alone gives it.
ghost use Rattle.delivery.specs.Sheets.{SheetOpened, SheetRefused, SheetSeals, lifted};
ghost use Rattle.fault.specs.Refusals.{Refusal, Refuses, sheet_faults};
ghost use Rattle.fault.specs.declared.kinds.SessionFault.{SessionFault};
ghost use Rattle.poet.specs.Seal.{Seals};
ghost use Rattle.reading.specs.Replies.{AllAnswered};
ghost use Rattle.script.specs.Plays.{CoursePlayed};
ghost use Rattle.session.specs.Calls.{open_checks};
ghost use Rattle.sheet.specs.Entries.{Item};
ghost use Rattle.std.specs.Prelude.{◌≡◌, ◌≤◌, ◌↔◌, ℕ, List, length, take, Some, None};
ghost use Rattle.std.specs.Prelude.{IfErr, IfOk, IsOk};
ghost use Rattle.trial_forms.specs.Flipped.{flipped};

use crate::flipped::Flipped;
use delivery::open_sheet_as;
use fault::{Placed, SessionFault, SheetFault};
use reading::{Ask, Call, answer, play_as};
use script::{Course, End, Played, Stretch, play};
use session::KeyPlace;
use std::alloc::{AllocError, Global};

/// One message, sealed in one call.
pub fn seal(
    key: &[u8],
    header: &[u8],
    message: &[u8],
    out: &mut [u8],
    tag: &mut [u8; 16],
) -> Result<usize, Placed<SessionFault>>
    ensures accepts { length key.now ≡ 16 → length message.now ≤ length out.old
        → IsOk result ↔ ((C : List ℕ) × (T : List ℕ)
        × Seals (flipped key.now) header.now message.now C T) }
    ensures seals { IfOk result (λ n. (n ≡ length message.now)
        × Seals (flipped key.now) header.now message.now (take n out.new) tag.new) }
{
    session::seal::<Flipped>(key, header, message, out, tag)
}

/// One message, opened in one call.
pub fn open(
    key: &[u8],
    header: &[u8],
    ciphertext: &[u8],
    tag: &[u8],
    out: &mut [u8],
) -> Result<usize, Placed<SessionFault>>
    ensures accepts { length key.now ≡ 16 → length ciphertext.now ≤ length out.old
        → IsOk result ↔ ((M : List ℕ)
        × Seals (flipped key.now) header.now M ciphertext.now tag.now) }
    ensures message { IfOk result (λ n. (n ≡ length ciphertext.now)
        × Seals (flipped key.now) header.now (take n out.new) ciphertext.now tag.now) }
{
    session::open::<Flipped>(key, header, ciphertext, tag, out)
}

/// Any list of session calls.
pub fn play_session(
    heap: Global,
    place: &KeyPlace,
    headers: &[Stretch<'_>],
    course: Course<'_>,
) -> Result<(Played, End), AllocError>
    ensures { IfOk result
        (λ p. CoursePlayed course.entry flipped place.now.bytes headers.now p.0 p.1) }
{
    play::<Flipped>(heap, place, headers, course)
}

/// A sheet, opened and tested whole.
pub fn open_sheet(
    key: &[u8],
    header: &[u8],
    ciphertext: &[u8],
    tag: &[u8],
    out: &mut [u8],
) -> Result<usize, Placed<SheetFault>>
    ensures accepts { length key.now ≡ 16 → length ciphertext.now ≤ length out.old
        → IsOk result ↔ ((es : List Item)
        × SheetSeals (flipped key.now) header.now es ciphertext.now tag.now) }
    ensures entries { IfOk result (λ n. (es : List Item)
        × SheetOpened (flipped key.now) header.now ciphertext.now tag.now out.old out.new es
        × (n ≡ length es)) }
{
    open_sheet_as::<Flipped>(key, header, ciphertext, tag, out)
}

/// Any list of calls on a reader over the opened sheet.
pub fn play_reader<'a>(
    key: &[u8],
    header: &[u8],
    ciphertext: &[u8],
    tag: &[u8],
    out: &'a mut [u8],
    calls: &mut [Call<'a>],
) -> reading::Played<'a>
    ensures accepts { length key.now ≡ 16 → length ciphertext.now ≤ length out.old
        → IsOk result.outcome ↔ ((es : List Item)
        × SheetSeals (flipped key.now) header.now es ciphertext.now tag.now) }
    ensures answered { IfOk result.outcome (λ n. (es : List Item)
        → SheetSeals (flipped key.now) header.now es ciphertext.now tag.now
        → AllAnswered out.entry.ref_ptr es calls.old calls.new) }
{
    play_as::<Flipped>(key, header, ciphertext, tag, out, calls)
}

/// A sheet, opened and then read: once the replies are let go, the caller knows what the buffer
/// holds, accepted or refused.
pub fn open_and_read(
    key: &[u8],
    header: &[u8],
    ciphertext: &[u8],
    tag: &[u8],
    out: &mut [u8],
) -> Result<usize, Placed<SheetFault>>
    ensures entries { IfOk result (λ n. (es : List Item)
        × SheetOpened (flipped key.now) header.now ciphertext.now tag.now out.old out.new es
        × (n ≡ length es)) }
    ensures refused { (e : Refusal SessionFault)
        → open_checks key.now header.now ciphertext.now tag.now out.old ≡ Some e
        → Refuses sheet_faults (lifted e) result × (out.new ≡ out.old) }
    ensures broken { open_checks key.now header.now ciphertext.now tag.now out.old ≡ None
        → IfErr result (SheetRefused (flipped key.now)
        header.now ciphertext.now tag.now out.old out.new) }
{
    let count = open_sheet_as::<Flipped>(key, header, ciphertext, tag, out)?;
    let mut calls = [Call {
        ask: Ask::Next,
        reply: None,
    }];
    answer(&out[..ciphertext.len()], &mut calls);
    Ok(count)
}
