//! Opens a delivered sheet and answers a list of calls on a new reader over it.
ghost use Rattle.std.specs.Prelude.{◌≡◌, ◌≤◌, ◌↔◌, ℕ, List, length, drop};
ghost use Rattle.std.specs.Prelude.{IfErr, IfNone, IfOk, IfSome, IsOk, OnErr};
ghost use Rattle.fault.specs.declared.kinds.SessionFault.{SessionFault};
ghost use Rattle.fault.specs.Refusals.{Refusal, Refuses, sheet_faults};
ghost use Rattle.sheet.specs.Entries.{Item};
ghost use Rattle.wire.specs.Wire.{parts_of};
ghost use Rattle.session.specs.Calls.{open_checks};
ghost use Rattle.delivery.specs.Told.{not_listed, suite_of};
ghost use Rattle.delivery.specs.Sheets.{SheetCall, SheetOpened, SheetRefused, SheetSeals, lifted};
ghost use Rattle.reading.specs.Replies.{AllAnswered};
ghost use Rattle.reading.specs.Deliveries.{Holds, PlayedCall};

use crate::answers::answer;
use crate::script::{Call, Played};
use delivery::{open_sheet_as, told};
use suite::Suite;
use suites::at_listed;
use wire::Delivery;

/// Opens the sheet of a delivery into the front of `out`, and answers each of the calls in its
/// place, on a new reader over the sheet.
///
/// # Errors
///
/// `outcome` has the refusals of `delivery::open_sheet`; the calls are then as they were.
pub fn play<'a>(d: Delivery<'_>, out: &'a mut [u8], calls: &mut [Call<'a>]) -> Played<'a>
    ensures unlisted { let p = parts_of d.entry in IfNone (suite_of p.suite)
        (Refuses sheet_faults (lifted (not_listed p.suite)) result.outcome
        × (result.buffer.now ≡ out.old)) }
    ensures listed { let p = parts_of d.entry in IfSome (suite_of p.suite) (λ under.
        SheetCall under p.key p.header p.ciphertext p.tag
        out.old result.buffer.now result.outcome) }
    ensures answered { IfOk result.outcome (λ n. (es : List Item) → Holds (parts_of d.entry) es
        → AllAnswered out.entry.ref_ptr es calls.old calls.new) }
    ensures unanswered { OnErr result.outcome (calls.new ≡ calls.old) }
    ensures lent { result.buffer.ref_ptr ≡ out.entry.ref_ptr }
{
    match told(d.suite) {
        Ok(listed) => at_listed!(
            listed,
            played(d.key, d.header, d.ciphertext, d.tag, out, calls)
        ),
        Err(fault) => Played {
            buffer: out,
            outcome: Err(fault),
        },
    }
}

/// The same under any suite, from the parts of a delivery.
///
/// # Errors
///
/// `outcome` has the refusals of `delivery::open_sheet_as`; the calls are then as they
/// were.
pub fn play_as<'a, S: Suite>(
    key: &[u8],
    header: &[u8],
    ciphertext: &[u8],
    tag: &[u8],
    out: &'a mut [u8],
    calls: &mut [Call<'a>],
) -> Played<'a>
    ensures refused { (e : Refusal SessionFault)
        → open_checks key.now header.now ciphertext.now tag.now out.old ≡ Some e
        → Refuses sheet_faults (lifted e) result.outcome × (result.buffer.now ≡ out.old) }
    ensures accepts { length key.now ≡ 16 → length ciphertext.now ≤ length out.old
        → IsOk result.outcome ↔ ((es : List Item)
        × SheetSeals (S.Suite.under key.now) header.now es ciphertext.now tag.now) }
    ensures entries { IfOk result.outcome (λ n. (es : List Item)
        × SheetOpened (S.Suite.under key.now) header.now ciphertext.now tag.now
        out.old result.buffer.now es × (n ≡ length es)) }
    ensures broken { open_checks key.now header.now ciphertext.now tag.now out.old ≡ None
        → IfErr result.outcome (SheetRefused (S.Suite.under key.now)
        header.now ciphertext.now tag.now out.old result.buffer.now) }
    ensures rest { drop (length ciphertext.now) result.buffer.now
        ≡ drop (length ciphertext.now) out.old }
    ensures answered { IfOk result.outcome (λ n. (es : List Item)
        → SheetSeals (S.Suite.under key.now) header.now es ciphertext.now tag.now
        → AllAnswered out.entry.ref_ptr es calls.old calls.new) }
    ensures unanswered { OnErr result.outcome (calls.new ≡ calls.old) }
    ensures lent { result.buffer.ref_ptr ≡ out.entry.ref_ptr }
{
    match open_sheet_as::<S>(key, header, ciphertext, tag, out) {
        Ok(count) => {
            let buffer: &'a [u8] = out;
            answer(&buffer[..ciphertext.len()], calls);
            Played {
                buffer,
                outcome: Ok(count),
            }
        }
        Err(fault) => Played {
            buffer: out,
            outcome: Err(fault),
        },
    }
}

// The same. All that the call says is one fact here, which `play` hands on.
fn played<'a, S: Suite>(
    key: &[u8],
    header: &[u8],
    ciphertext: &[u8],
    tag: &[u8],
    out: &'a mut [u8],
    calls: &mut [Call<'a>],
) -> Played<'a>
    ensures { PlayedCall S.Suite.under key.now header.now ciphertext.now tag.now
        out.entry out.old calls.old calls.new result }
{
    play_as::<S>(key, header, ciphertext, tag, out, calls)
}
