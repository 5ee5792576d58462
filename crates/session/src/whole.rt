//! Sealing and opening of whole buffers in one call. Each makes its own checks, and a refusal
//! leaves every buffer as it was, but for a forgery, which leaves zeros in the message's place.
ghost use Rattle.std.specs.Prelude.{◌≡◌, ◌≤◌, ◌↔◌, ℕ, List, ◌++◌, length, take, drop, replicate};
ghost use Rattle.std.specs.Prelude.{IfErr, IfOk, IsOk, OnErr};
ghost use Rattle.fault.specs.declared.kinds.SessionFault.{SessionFault};
ghost use Rattle.fault.specs.Refusals.{IsRefusal, Refusal, RefusedBy, Refuses, session_faults};
ghost use Rattle.poet.specs.Seal.{Seals};
ghost use Rattle.session.specs.Calls.{forged, open_checks, seal_checks};

use crate::checks::{checked, tag_bytes};
use crate::keys::KeyPlace;
use crate::straight::{open_straight, seal_straight};
use fault::{Placed, SessionFault};
use suite::Suite;

/// Seals `message`, 1 to 1,048,576 bytes, under a `key` of sixteen bytes and a `header` of 65,536
/// at most: the ciphertext, as long as the message, goes to the front of `out`, and the tag to
/// `tag`. Answers how many bytes it wrote to `out`.
///
/// Refuses a key (3), header (4), body (5), room (6) or empty body (7) that fails, in this order,
/// and then alters nothing. The place is 0, and a key's length for 3.
//
// A parameter for each buffer: every one has a refusal of its own, and a struct of them would be
// made for the call alone.
pub fn seal<S: Suite>(
    key: &[u8],
    header: &[u8],
    message: &[u8],
    out: &mut [u8],
    tag: &mut [u8; 16],
) -> Result<usize, Placed<SessionFault>>
    ensures refused { RefusedBy session_faults
        (seal_checks key.now header.now message.now out.old) result }
    ensures unaltered { OnErr result ((out.new ≡ out.old) × (tag.new ≡ tag.old)) }
    ensures accepts { length key.now ≡ 16 → length message.now ≤ length out.old
        → IsOk result ↔ ((C : List ℕ) × (T : List ℕ)
        × Seals (S.Suite.under key.now) header.now message.now C T) }
    ensures seals { IfOk result (λ n. (n ≡ length message.now)
        × Seals (S.Suite.under key.now) header.now message.now (take n out.new) tag.new) }
    ensures rest { drop (length message.now) out.new ≡ drop (length message.now) out.old }
    ensures room { IfOk result (λ n. n ≤ length out.old) }
{
    let mut place = KeyPlace::new();
    place.fill(key)?;
    checked(header, message, out.len())?;
    seal_straight::<S>(&place, header, message, out, tag)?;
    Ok(message.len())
}

/// Opens `ciphertext` under `key` and `header` if some message seals to it and to `tag`: that
/// message goes to the front of `out`. Answers how many bytes it wrote.
///
/// Refuses as `seal` does, and then a tag that has not sixteen bytes (8), at 0, altering nothing;
/// and a forgery (9), at the ciphertext's length: then there are zeros in the message's place.
pub fn open<S: Suite>(
    key: &[u8],
    header: &[u8],
    ciphertext: &[u8],
    tag: &[u8],
    out: &mut [u8],
) -> Result<usize, Placed<SessionFault>>
    ensures refused { (e : Refusal SessionFault)
        → open_checks key.now header.now ciphertext.now tag.now out.old ≡ Some e
        → Refuses session_faults e result × (out.new ≡ out.old) }
    ensures accepts { length key.now ≡ 16 → length ciphertext.now ≤ length out.old
        → IsOk result ↔ ((M : List ℕ)
        × Seals (S.Suite.under key.now) header.now M ciphertext.now tag.now) }
    ensures message { IfOk result (λ n. (n ≡ length ciphertext.now)
        × Seals (S.Suite.under key.now) header.now (take n out.new) ciphertext.now tag.now) }
    ensures only { IfOk result (λ n. (M : List ℕ)
        → Seals (S.Suite.under key.now) header.now M ciphertext.now tag.now
        → M ≡ take n out.new) }
    ensures forgery { open_checks key.now header.now ciphertext.now tag.now out.old ≡ None
        → IfErr result (λ e. IsRefusal session_faults (forged (length ciphertext.now)) e
        × (out.new ≡ replicate (length ciphertext.now) 0
        ++ drop (length ciphertext.now) out.old)) }
    ensures rest { drop (length ciphertext.now) out.new ≡ drop (length ciphertext.now) out.old }
    ensures room { IfOk result (λ n. n ≤ length out.old) }
{
    let mut place = KeyPlace::new();
    place.fill(key)?;
    checked(header, ciphertext, out.len())?;
    let tag = tag_bytes(tag, 0)?;
    let len = ciphertext.len();
    if let Err(fault) = open_straight::<S>(&place, header, ciphertext, &tag, out) {
        out[..len].fill(0);
        return Err(fault);
    }
    Ok(len)
}
