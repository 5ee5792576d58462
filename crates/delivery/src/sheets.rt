//! Opening of a delivered sheet: the message is opened under a suite, and every entry of it is
//! tested.
ghost use Rattle.std.specs.Prelude.{◌≡◌, ◌≤◌, ◌↔◌, ℕ, List, length, drop};
ghost use Rattle.std.specs.Prelude.{IfErr, IfNone, IfOk, IfSome, IsOk};
ghost use Rattle.fault.specs.declared.kinds.SessionFault.{SessionFault};
ghost use Rattle.fault.specs.Refusals.{Refusal, Refuses, sheet_faults};
ghost use Rattle.session.specs.Calls.{open_checks};
ghost use Rattle.sheet.specs.Entries.{Item};
ghost use Rattle.wire.specs.Wire.{parts_of};
ghost use Rattle.delivery.specs.Told.{not_listed, suite_of};
ghost use Rattle.delivery.specs.Sheets.{SheetCall, SheetOpened, SheetRefused, SheetSeals};
ghost use Rattle.delivery.specs.Sheets.{ToldSuite, lifted};

use fault::{Placed, SessionFault, SheetFault};
use sheet::whole::test;
use suite::Suite;
use suites::{Listed, at_listed};
use wire::Delivery;

/// The suite with a number.
///
/// # Errors
///
/// 2 for a number that is not listed, at that number.
pub fn told(number: u8) -> Result<Listed, Placed<SheetFault>>
    ensures { ToldSuite number result }
{
    match Listed::try_from(number) {
        Ok(suite) => Ok(suite),
        Err(fault) => {
            let fault = Placed::<SessionFault>::from(fault);
            Err(fault.into())
        }
    }
}

/// Opens a delivered sheet into the front of `out`, and answers how many entries it has.
///
/// # Errors
///
/// 2 before all else for a suite that is not listed, at its number; `out` is then unaltered. Else
/// the refusals of `open_sheet_as`.
pub fn open_sheet(d: Delivery<'_>, out: &mut [u8]) -> Result<usize, Placed<SheetFault>>
    ensures unlisted { let p = parts_of d.entry in IfNone (suite_of p.suite)
        (Refuses sheet_faults (lifted (not_listed p.suite)) result × (out.new ≡ out.old)) }
    ensures listed { let p = parts_of d.entry in IfSome (suite_of p.suite) (λ under.
        SheetCall under p.key p.header p.ciphertext p.tag out.old out.new result) }
{
    let listed = told(d.suite)?;
    at_listed!(listed, opened(d.key, d.header, d.ciphertext, d.tag, out))
}

/// Opens a sheet under any suite, from the parts of a delivery: if some list of one or more
/// entries, written and sealed, gives `ciphertext` and `tag`, its sheet goes to the front of `out`.
/// Answers how many entries it has.
///
/// # Errors
///
/// 3 to 9 as `session::open` refuses. Then 10 to 13 for what was sealed and is no sheet, as the
/// test of a sheet refuses it; zeros are then where the sheet would be.
pub fn open_sheet_as<S: Suite>(
    key: &[u8],
    header: &[u8],
    ciphertext: &[u8],
    tag: &[u8],
    out: &mut [u8],
) -> Result<usize, Placed<SheetFault>>
    ensures refused { (e : Refusal SessionFault)
        → open_checks key.now header.now ciphertext.now tag.now out.old ≡ Some e
        → Refuses sheet_faults (lifted e) result × (out.new ≡ out.old) }
    ensures accepts { length key.now ≡ 16 → length ciphertext.now ≤ length out.old
        → IsOk result ↔ ((es : List Item)
        × SheetSeals (S.Suite.under key.now) header.now es ciphertext.now tag.now) }
    ensures entries { IfOk result (λ n. (es : List Item)
        × SheetOpened (S.Suite.under key.now) header.now ciphertext.now tag.now out.old out.new es
        × (n ≡ length es)) }
    ensures broken { open_checks key.now header.now ciphertext.now tag.now out.old ≡ None
        → IfErr result (SheetRefused (S.Suite.under key.now)
        header.now ciphertext.now tag.now out.old out.new) }
    ensures rest { drop (length ciphertext.now) out.new ≡ drop (length ciphertext.now) out.old }
{
    let len = session::open::<S>(key, header, ciphertext, tag, out)?;
    match test(&out[0..len]) {
        Ok(count) => Ok(count),
        Err(fault) => {
            out[0..len].fill(0);
            Err(fault)
        }
    }
}

// The same. All that the call says is one fact here, which `open_sheet` hands on.
fn opened<S: Suite>(
    key: &[u8],
    header: &[u8],
    ciphertext: &[u8],
    tag: &[u8],
    out: &mut [u8],
) -> Result<usize, Placed<SheetFault>>
    ensures { SheetCall S.Suite.under
        key.now header.now ciphertext.now tag.now out.old out.new result }
{
    open_sheet_as::<S>(key, header, ciphertext, tag, out)
}
