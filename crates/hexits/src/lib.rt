//! Bytes as hexadecimal digits, for the programs.
#![tactic(auto)]

ghost use Rattle.std.specs.Prelude.{Some};
ghost use Rattle.hex.specs.Hex.{encode_lower};

use std::fmt;

/// Bytes that are shown as two digits each, in lower case, the high four bits first.
#[derive(Clone, Copy)]
pub struct Hex<'a>(pub &'a [u8]);

impl fmt::Display for Hex<'_> {
    ghost output = { λ x. Some (encode_lower x.0.now) };

    fn fmt<W: fmt::Write>(&self, f: &mut fmt::Formatter<W>) -> fmt::Result {
        for b in self.0 {
            let b = *b;
            write!(f, "{b:02x}")?;
        }
        Ok(())
    }
}
