//! A session whose body has started, one way or the other: its body call, and the finish of each
//! way.

// Each `impl` has the imports of its own contracts: those at the top are for the struct's ghost
// fields, and may not lead to definitions that name the struct.
ghost use Rattle.std.specs.Prelude.{◌≡◌, ◌+◌, ◌-◌, ◌*◌, ◌/◌, ◌≤◌, length};
ghost use Rattle.poet.specs.Seal.{body_most};

use crate::blocks::same;
use crate::checks::{BODY_MOST, tag_bytes};
use crate::engine::Engine;
use crate::rows::{Lanes, Open, Seal, Way};
use block::complete;
use buffer::Buffer;
use fault::{Placed, SessionFault};
use std::marker::PhantomData;
use suite::Suite;

/// A session whose body has started: the suite's parts, the last blocks of the rows, the bytes that
/// no row has taken yet, and the number of body bytes taken, 1,048,576 at most.
#[derive(Drop)]
pub struct Session<S: Suite, W: Way> {
    pub(crate) engine: Engine<S>,
    pub(crate) lanes: Lanes,
    pub(crate) held: Buffer<16>,
    pub(crate) total: usize,
    pub(crate) way: PhantomData<W>,
    ghost within: { total ≤ body_most },
    ghost split: { length held + 16 * ((total - 1) / 16) ≡ total },
}

/// A sealing takes the message and hands out the ciphertext.
pub type Sealing<S> = Session<S, Seal>;

/// An opening takes the ciphertext and hands out the message, which is provisional until the finish
/// accepts it.
pub type Opening<S> = Session<S, Open>;

impl<S: Suite, W: Way> Session<S, W> {
    ghost use Rattle.std.specs.Prelude.{◌≡◌, ◌+◌, ◌≤◌, length, take, drop, IfOk, OnErr};
    ghost use Rattle.fault.specs.Refusals.{RefusedBy, session_faults};
    ghost use Rattle.session.specs.Promise.{AgreesWith, Blocks};
    ghost use Rattle.session.specs.Runs.{Run, bodied};
    ghost use Rattle.session.specs.Sessions.{SessionAt, body_check, given_of, held};

    /// Takes a stretch of the message, or of an opening's ciphertext, and writes to the front of
    /// `out` every whole block that at least one more byte follows. Answers how many bytes it
    /// wrote, and how many it holds back, 16 at most.
    ///
    /// Refuses bytes that would bring the body past 1,048,576 (5) and an `out` that is too short
    /// for what it would write (6), at the number of bytes taken before; then it alters nothing.
    //
    // The pair has no names of its own: a caller who asks for one number only takes it by its
    // place.
    pub fn body(
        &mut self,
        input: &[u8],
        out: &mut [u8],
    ) -> Result<(usize, usize), Placed<SessionFault>>
        ensures room { IfOk result (λ n. n.0 ≤ length out.old) }
        ensures refused { (R : Run) → SessionAt R self.old
            → RefusedBy session_faults
            (body_check (length R.body) (held R) (length input.now) (length out.old)) result }
        ensures unaltered { OnErr result ((self.new ≡ self.old) × (out.new ≡ out.old)) }
        ensures answer { (R : Run) → SessionAt R self.old
            → IfOk result (λ n. n ≡ given_of (held R + length input.now)) }
        ensures rest { (R : Run) → SessionAt R self.old
            → IfOk result (λ n. drop n.0 out.new ≡ drop n.0 out.old) }
        ensures taken { (R : Run) → SessionAt R self.old
            → IfOk result (λ n. SessionAt (bodied R input.now (take n.0 out.new)) self.new) }
        ensures blocks { (R : Run) → SessionAt R self.old
            → IfOk result (λ n. Blocks W.Way.way (S.Suite.under R.key)
            (bodied R input.now (take n.0 out.new))) }
        ensures two_runs { (R : Run) → SessionAt R self.old
            → IfOk result (λ n. AgreesWith W.Way.way (S.Suite.under R.key)
            (bodied R input.now (take n.0 out.new))) }
    {
        if input.len() > BODY_MOST - self.total {
            return Err(Placed {
                fault: SessionFault::Body,
                place: self.total,
            });
        }
        let t = self.held.as_slice().len() + input.len();
        let n = t.saturating_sub(1) / 16;
        let written = 16 * n;
        if out.len() < written {
            return Err(Placed {
                fault: SessionFault::Room,
                place: self.total,
            });
        }
        self.lanes = self
            .engine
            .run::<W>(self.lanes, &mut self.held, input, out, n);
        self.total += input.len();
        Ok((written, t - written))
    }
}

impl<S: Suite> Sealing<S> {
    ghost use Rattle.std.specs.Prelude.{◌≡◌, ◌-◌, ◌≤◌, ◌↔◌, ℕ, List, ◌++◌, take, drop, replicate};
    ghost use Rattle.std.specs.Prelude.{IfOk, IsOk, OnErr};
    ghost use Rattle.fault.specs.Refusals.{RefusedBy, session_faults};
    ghost use Rattle.poet.specs.Seal.{Seals};
    ghost use Rattle.session.specs.Directions.{sealing};
    ghost use Rattle.session.specs.Promise.{AgreesWith, Blocks};
    ghost use Rattle.session.specs.Runs.{Run, ended};
    ghost use Rattle.session.specs.Sessions.{SessionAt, held, sealing_check};

    /// Ends the sealing: the last bytes of the ciphertext go to `last`, with zeros behind them, and
    /// the tag to `tag`. Answers how many bytes the last ones are, 1 to 16.
    ///
    /// Refuses a sealing that took no body (7), at 0; then both places hold zeros.
    pub fn finish(
        self,
        last: &mut [u8; 16],
        tag: &mut [u8; 16],
    ) -> Result<usize, Placed<SessionFault>>
        ensures few { IfOk result (λ n. n ≤ 16) }
        ensures refused { (R : Run) → SessionAt R self
            → RefusedBy session_faults (sealing_check R) result }
        ensures cleared { OnErr result ((last.new ≡ replicate 16 0) × (tag.new ≡ replicate 16 0)) }
        ensures seals { (R : Run) → SessionAt R self
            → IfOk result (λ n. (n ≡ held R)
            × Seals (S.Suite.under R.key) R.header R.body (R.out ++ take n last.new) tag.new) }
        ensures zeros { (R : Run) → SessionAt R self
            → IfOk result (λ n. drop n last.new ≡ replicate (16 - n) 0) }
        ensures accepts { (R : Run) → SessionAt R self
            → IsOk result ↔ ((C : List ℕ) × (T : List ℕ)
            × Seals (S.Suite.under R.key) R.header R.body C T) }
        ensures blocks { (R : Run) → SessionAt R self
            → Blocks sealing (S.Suite.under R.key) (ended R result last.new) }
        ensures two_runs { (R : Run) → SessionAt R self
            → AgreesWith sealing (S.Suite.under R.key) (ended R result last.new) }
    {
        if self.total == 0 {
            *last = [0; 16];
            *tag = [0; 16];
            return Err(Placed {
                fault: SessionFault::Empty,
                place: 0,
            });
        }
        let mask = self.engine.mask(self.total);
        let held = self.held.as_slice();
        let block = complete(held, &self.engine.tau);
        let (end, given) = self.engine.last_row::<Seal>(self.lanes, mask, block);
        let z = self.engine.closing(end.taking, end.giving);
        *last = complete(&given[..held.len()], &[0; 16]);
        *tag = complete(&given[held.len()..], &z);
        Ok(held.len())
    }
}

impl<S: Suite> Opening<S> {
    ghost use Rattle.std.specs.Prelude.{◌≡◌, ◌-◌, ◌≤◌, ◌↔◌, ℕ, List, ◌++◌, length, take, drop};
    ghost use Rattle.std.specs.Prelude.{replicate, IfErr, IfOk, IsOk, OnErr};
    ghost use Rattle.fault.specs.declared.kinds.SessionFault.{SessionFault};
    ghost use Rattle.fault.specs.Refusals.{IsRefusal, Refusal, Refuses, session_faults};
    ghost use Rattle.poet.specs.Seal.{Seals};
    ghost use Rattle.session.specs.Calls.{forged};
    ghost use Rattle.session.specs.Directions.{opening};
    ghost use Rattle.session.specs.Promise.{AgreesWith, Blocks};
    ghost use Rattle.session.specs.Runs.{Run, ended};
    ghost use Rattle.session.specs.Sessions.{SessionAt, held, opening_check, rows_of};
    ghost use Rattle.session.specs.Steps.{Tested};

    /// Ends the opening: accepts what was handed out, or refuses it. The last bytes of the message
    /// go to `last`, with zeros behind them. Answers how many bytes these are, 1 to 16.
    ///
    /// Refuses an opening that took no body (7), at 0, a tag that has not sixteen bytes (8) and one
    /// that no message seals to (9), at the number of bytes taken; then `last` holds zeros, and
    /// nothing that was handed out may be used.
    pub fn finish(self, tag: &[u8], last: &mut [u8; 16]) -> Result<usize, Placed<SessionFault>>
        ensures few { IfOk result (λ n. n ≤ 16) }
        ensures refused { (R : Run) → SessionAt R self
            → (e : Refusal SessionFault) → opening_check R tag.now ≡ Some e
            → Refuses session_faults e result }
        ensures forgery { (R : Run) → SessionAt R self
            → opening_check R tag.now ≡ None
            → IfErr result (IsRefusal session_faults (forged (length R.body))) }
        ensures cleared { OnErr result (last.new ≡ replicate 16 0) }
        ensures accepts { (R : Run) → SessionAt R self
            → IsOk result ↔ ((M : List ℕ)
            × Seals (S.Suite.under R.key) R.header M R.body tag.now) }
        ensures message { (R : Run) → SessionAt R self
            → IfOk result (λ n. (n ≡ held R)
            × Seals (S.Suite.under R.key) R.header (R.out ++ take n last.new) R.body tag.now) }
        ensures only { (R : Run) → SessionAt R self
            → IfOk result (λ n. (M : List ℕ)
            → Seals (S.Suite.under R.key) R.header M R.body tag.now
            → M ≡ R.out ++ take n last.new) }
        ensures zeros { (R : Run) → SessionAt R self
            → IfOk result (λ n. drop n last.new ≡ replicate (16 - n) 0) }
        ensures blocks { (R : Run) → SessionAt R self
            → Blocks opening (S.Suite.under R.key) (ended R result last.new) }
        ensures two_runs { (R : Run) → SessionAt R self
            → AgreesWith opening (S.Suite.under R.key) (ended R result last.new) }
    {
        *last = [0; 16];
        if self.total == 0 {
            return Err(Placed {
                fault: SessionFault::Empty,
                place: 0,
            });
        }
        let tag = tag_bytes(tag, self.total)?;
        let Some(given) = self.verdict(&tag) else {
            return Err(Placed {
                fault: SessionFault::Forged,
                place: self.total,
            });
        };
        let len = self.held.as_slice().len();
        *last = complete(&given[..len], &[0; 16]);
        Ok(len)
    }

    // The last row under a tag: the block that it gives, if the opening passes its tests. Both
    // tests are made, and each to the end, so that the time tells nothing of where a forgery fails.
    fn verdict(&self, tag: &[u8; 16]) -> Option<[u8; 16]>
        ensures { (R : Run) → SessionAt R self.now
            → Tested (S.Suite.under R.key) R.header R.body tag.now
            (rows_of opening (S.Suite.under R.key) R).out result }
    {
        let mask = self.engine.mask(self.total);
        let held = self.held.as_slice();
        let block = complete(held, tag);
        let (end, given) = self.engine.last_row::<Open>(self.lanes, mask, block);
        let z = self.engine.closing(end.giving, end.taking);
        let padded = same(&given, &complete(&given[..held.len()], &self.engine.tau));
        let tagged = same(tag, &complete(&tag[..16 - held.len()], &z));
        (padded & tagged).then_some(given)
    }
}
