//! The faults of the layers, and where each was found. A layer's enum has a case that carries the
//! fault of the layer below, unaltered.
ghost use Rattle.std.specs.Prelude.{◌≡◌};
ghost use Rattle.fault.specs.declared.kinds.ConsoleFault.TheVariants.{Sheet};
ghost use Rattle.fault.specs.declared.kinds.SessionFault.TheVariants.{Key};
ghost use Rattle.fault.specs.declared.kinds.SheetFault.TheVariants.{Session};
ghost use Rattle.fault.specs.Refusals.{HandedOn, console_faults, key_faults, session_faults};
ghost use Rattle.fault.specs.Refusals.{sheet_faults};

/// The layer that found a fault.
#[derive(Debug, PartialEq, Eq, Clone, Copy)]
pub enum Layer {
    Key,
    Session,
    Sheet,
    Console,
}

/// What is wrong with a suite's number or a key.
#[derive(Debug, PartialEq, Eq, Clone, Copy)]
pub enum KeyFault {
    /// The suite is not listed.
    Suite,
    /// The key has not 16 bytes.
    Length,
}

/// What is wrong with a sealing or an opening.
#[derive(Debug, PartialEq, Eq, Clone, Copy)]
pub enum SessionFault {
    /// A fault of the key.
    Key(KeyFault),
    /// The header would pass 65,536 bytes.
    Header,
    /// The body would pass 1,048,576 bytes.
    Body,
    /// The caller's buffer is shorter than what the call would write.
    Room,
    /// There is no body.
    Empty,
    /// The tag has not 16 bytes.
    Tag,
    /// No message seals so.
    Forged,
}

/// What is wrong with a sheet, or with an entry that is written.
#[derive(Debug, PartialEq, Eq, Clone, Copy)]
pub enum SheetFault {
    /// A fault of the session, or below.
    Session(SessionFault),
    /// The buffer has less room than an entry or a line needs.
    Room,
    /// An entry is cut short.
    Cut,
    /// A bit is set in an entry's map that may not be.
    UnknownBit,
    /// A bit that must be set is missing.
    Missing,
    /// A value is outside its form.
    Value,
}

/// What is wrong with a delivery.
#[derive(Debug, PartialEq, Eq, Clone, Copy)]
pub enum ConsoleFault {
    /// A fault of the sheet, or below.
    Sheet(SheetFault),
    /// The input is cut short, too long, or over its limits.
    Input,
}

/// A fault and its place: which, docs/REFUSALS.md says for each fault.
#[derive(Debug, PartialEq, Eq, Clone, Copy)]
pub struct Placed<F> {
    pub fault: F,
    pub place: usize,
}

// A lower layer's fault is handed on with its number, layer and place. An impl for each pair of
// layers: one over all of them would overlap with std's `From<T> for T`.
impl From<Placed<KeyFault>> for Placed<SessionFault> {
    ghost from_gives = { HandedOn key_faults session_faults Key };

    fn from(e: Placed<KeyFault>) -> Placed<SessionFault> {
        Placed {
            fault: SessionFault::Key(e.fault),
            place: e.place,
        }
    }
}

impl From<Placed<SessionFault>> for Placed<SheetFault> {
    ghost from_gives = { HandedOn session_faults sheet_faults Session };

    fn from(e: Placed<SessionFault>) -> Placed<SheetFault> {
        Placed {
            fault: SheetFault::Session(e.fault),
            place: e.place,
        }
    }
}

impl From<Placed<SheetFault>> for Placed<ConsoleFault> {
    ghost from_gives = { HandedOn sheet_faults console_faults Sheet };

    fn from(e: Placed<SheetFault>) -> Placed<ConsoleFault> {
        Placed {
            fault: ConsoleFault::Sheet(e.fault),
            place: e.place,
        }
    }
}
