//! The place of the caller's that a key is put into.
ghost use Rattle.std.specs.Prelude.{◌≡◌, replicate, OnErr, OnOk};
ghost use Rattle.fault.specs.Refusals.{RefusedBy, key_faults};
ghost use Rattle.session.specs.Calls.{key_check};

use fault::{KeyFault, Placed};

/// A place for a key of sixteen bytes: zeros until a key is put in.
#[derive(Clone, Copy)]
pub struct KeyPlace {
    pub(crate) bytes: [u8; 16],
}

impl KeyPlace {
    /// An empty place, which holds zeros.
    pub fn new() -> KeyPlace
        ensures { result.bytes ≡ replicate 16 0 }
    {
        KeyPlace { bytes: [0; 16] }
    }

    /// Puts a key in. Refuses one that has not sixteen bytes (3), at its length; then the place
    /// stays as it was.
    pub fn fill(&mut self, key: &[u8]) -> Result<(), Placed<KeyFault>>
        ensures refused { RefusedBy key_faults (key_check key.now) result }
        ensures unaltered { OnErr result (self.new.bytes ≡ self.old.bytes) }
        ensures filled { OnOk result (self.new.bytes ≡ key.now) }
    {
        if key.len() != 16 {
            return Err(Placed {
                fault: KeyFault::Length,
                place: key.len(),
            });
        }
        self.bytes.copy_from_slice(key);
        Ok(())
    }
}
