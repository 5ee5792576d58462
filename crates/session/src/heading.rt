//! A heading: a session that takes its header.

// The `impl` has the imports of its own contracts: those at the top are for the struct's ghost
// field, and may not lead to definitions that name the struct.
ghost use Rattle.std.specs.Prelude.{◌≤◌};
ghost use Rattle.poet.specs.Seal.{header_most};

use crate::body::{Opening, Sealing, Session};
use crate::checks::HEADER_MOST;
use crate::engine::Engine;
use crate::keys::KeyPlace;
use crate::rows::{Open, Seal, Way};
use block::xor;
use buffer::Buffer;
use fault::{Placed, SessionFault};
use std::marker::PhantomData;
use suite::{HeaderDigest, Keyed, Suite};

/// A session that takes its header, in stretches of any size: 0 to 65,536 bytes in all.
#[derive(Drop)]
pub struct Heading<S: Suite> {
    pub(crate) permutation: S::Permutation,
    pub(crate) hash: S::ChainingHash,
    pub(crate) digest: S::HeaderDigest,
    pub(crate) count: usize,
    ghost within: { count ≤ header_most },
}

impl<S: Suite> Heading<S> {
    ghost use Rattle.std.specs.Prelude.{◌≡◌, ℕ, List, length, OnErr, OnOk};
    ghost use Rattle.fault.specs.Refusals.{RefusedBy, session_faults};
    ghost use Rattle.session.specs.Runs.{Run, fresh, headed};
    ghost use Rattle.session.specs.Sessions.{HeadingAt, SessionAt, header_check};

    /// A new session under the key that is in `place`, or under sixteen zeros if none was put in.
    pub fn new(place: &KeyPlace) -> Heading<S>
        ensures { HeadingAt (fresh place.now.bytes) result }
    {
        Heading::under(place.bytes)
    }

    fn under(key: [u8; 16]) -> Heading<S>
        ensures { HeadingAt (fresh key) result }
    {
        let Keyed {
            permutation,
            hash,
            digest,
        } = S::set_up(key);
        Heading {
            permutation,
            hash,
            digest,
            count: 0,
        }
    }

    /// Adds bytes to the header. Refuses bytes that would bring it past 65,536 (4), at the number
    /// of bytes taken before; then the heading stays as it was.
    pub fn header(&mut self, p: &[u8]) -> Result<(), Placed<SessionFault>>
        ensures refused { (R : Run) → HeadingAt R self.old
            → RefusedBy session_faults (header_check (length R.header) (length p.now)) result }
        ensures unaltered { OnErr result (self.new ≡ self.old) }
        ensures taken { (R : Run) → HeadingAt R self.old
            → OnOk result (HeadingAt (headed R p.now) self.new) }
    {
        if p.len() > HEADER_MOST - self.count {
            return Err(Placed {
                fault: SessionFault::Header,
                place: self.count,
            });
        }
        self.digest.absorb(p);
        self.count += p.len();
        Ok(())
    }

    /// Starts the body of a sealing; the header ends here.
    pub fn seal(self) -> Sealing<S>
        ensures { (R : Run) → HeadingAt R self → SessionAt R result }
    {
        self.start::<Seal>()
    }

    /// Starts the body of an opening; the header ends here.
    pub fn open(self) -> Opening<S>
        ensures { (R : Run) → HeadingAt R self → SessionAt R result }
    {
        self.start::<Open>()
    }

    pub(crate) fn start<W: Way>(self) -> Session<S, W>
        ensures { (R : Run) → HeadingAt R self → SessionAt R result }
    {
        let Heading {
            permutation,
            hash,
            digest,
            count: _,
        } = self;
        let tau = digest.finish();
        let lanes = W::lanes(tau, xor(tau, S::encode(1)));
        Session {
            engine: Engine {
                permutation,
                hash,
                tau,
            },
            lanes,
            held: Buffer::new(),
            total: 0,
            way: PhantomData,
        }
    }
}
