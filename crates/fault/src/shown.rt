//! What a fault is called: its layer, its number, and a line of text.
ghost use Rattle.std.specs.Prelude.{◌≡◌, ℕ, Some};
ghost use Rattle.fault.specs.declared.kinds.Layer.{Layer};
ghost use Rattle.fault.specs.Numbers.{console_layer, console_number, key_layer, key_number};
ghost use Rattle.fault.specs.Numbers.{layer_name, layer_of, number_of, sheet_layer, sheet_number};
ghost use Rattle.fault.specs.Numbers.{shown_fault};

use crate::kinds::{ConsoleFault, KeyFault, Layer, Placed, SessionFault, SheetFault};
use std::error::Error;
use std::fmt;

impl Layer {
    /// Its name in a line of text.
    pub fn name(&self) -> &'static str
        ensures { result.now ≡ layer_name self.now }
    {
        match self {
            Layer::Key => "key",
            Layer::Session => "session",
            Layer::Sheet => "sheet",
            Layer::Console => "console",
        }
    }
}

impl fmt::Display for Layer {
    ghost output = { λ l. Some (layer_name l) };

    fn fmt<W: fmt::Write>(&self, f: &mut fmt::Formatter<W>) -> fmt::Result {
        let name = self.name();
        write!(f, "{name}")
    }
}

/// A fault of any layer has a number, by which it is told, and the layer that found it.
pub trait Fault {
    ghost number: { Self → ℕ };

    ghost layer: { Self → Layer };

    /// Its number.
    fn number(&self) -> u8
        ensures { result ≡ number self.now };

    /// The layer that found it.
    fn layer(&self) -> Layer
        ensures { result ≡ layer self.now };
}

impl Fault for KeyFault {
    ghost number = { key_number };

    ghost layer = { key_layer };

    fn number(&self) -> u8 {
        match self {
            KeyFault::Suite => 2,
            KeyFault::Length => 3,
        }
    }

    fn layer(&self) -> Layer {
        match self {
            KeyFault::Suite | KeyFault::Length => Layer::Key,
        }
    }
}

impl Fault for SessionFault {
    ghost number = { number_of };

    ghost layer = { layer_of };

    fn number(&self) -> u8 {
        match self {
            SessionFault::Key(k) => k.number(),
            SessionFault::Header => 4,
            SessionFault::Body => 5,
            SessionFault::Room => 6,
            SessionFault::Empty => 7,
            SessionFault::Tag => 8,
            SessionFault::Forged => 9,
        }
    }

    fn layer(&self) -> Layer {
        match self {
            SessionFault::Key(k) => k.layer(),
            _ => Layer::Session,
        }
    }
}

impl Fault for SheetFault {
    ghost number = { sheet_number };

    ghost layer = { sheet_layer };

    fn number(&self) -> u8 {
        match self {
            SheetFault::Session(s) => s.number(),
            SheetFault::Room => 6,
            SheetFault::Cut => 10,
            SheetFault::UnknownBit => 11,
            SheetFault::Missing => 12,
            SheetFault::Value => 13,
        }
    }

    fn layer(&self) -> Layer {
        match self {
            SheetFault::Session(s) => s.layer(),
            _ => Layer::Sheet,
        }
    }
}

impl Fault for ConsoleFault {
    ghost number = { console_number };

    ghost layer = { console_layer };

    fn number(&self) -> u8 {
        match self {
            ConsoleFault::Sheet(s) => s.number(),
            ConsoleFault::Input => 1,
        }
    }

    fn layer(&self) -> Layer {
        match self {
            ConsoleFault::Sheet(s) => s.layer(),
            ConsoleFault::Input => Layer::Console,
        }
    }
}

impl<F: Fault> fmt::Display for Placed<F> {
    ghost output = { λ x. Some (shown_fault (F.number x.fault) (F.layer x.fault) x.place) };

    fn fmt<W: fmt::Write>(&self, f: &mut fmt::Formatter<W>) -> fmt::Result {
        let number = self.fault.number();
        let layer = self.fault.layer();
        let place = self.place;
        write!(f, "refused {number} by the {layer} layer at {place}")
    }
}

impl<F: Fault + fmt::Debug + Drop> Error for Placed<F> {}
