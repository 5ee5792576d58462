//! The listed suites, told by their numbers.
ghost use Rattle.std.specs.Prelude.{◌≡◌};
ghost use Rattle.suites.specs.Listed.{IsSuite, LawfulLaw, NumberLaw, listed};

use crate::mirror::Mirror;
use crate::shaft::{Shaft, ShaftPadded, ShaftSpeck};
use crate::submission::{PoetAesFour, PoetAesTen};
use fault::{KeyFault, Placed};
use suite::Suite;

/// The number of the shaft suite under which whole blocks of a header stay as they are.
pub const SHAFT: u8 = 1;

/// The number of POET-AES10-AES4.
pub const POET_AES_FOUR: u8 = 2;

/// The number of POET-AES10-AES10.
pub const POET_AES_TEN: u8 = 3;

/// The number of the mirror suite.
pub const MIRROR: u8 = 4;

/// The number of the shaft suite under which every header is padded.
pub const SHAFT_PADDED: u8 = 5;

/// The number of the padded shaft suite over Speck128/128.
pub const SHAFT_SPECK: u8 = 6;

/// A listed suite.
#[derive(Debug, PartialEq, Eq, Clone, Copy)]
pub enum Listed {
    Shaft,
    PoetAesFour,
    PoetAesTen,
    Mirror,
    ShaftPadded,
    ShaftSpeck,
}

impl TryFrom<u8> for Listed {
    type Error = Placed<KeyFault>;

    ghost try_from_gives = { λ n r. r ≡ listed n };

    #[tactic(auto, unfolding(crate::specs::Listed::numbered))]
    fn try_from(number: u8) -> Result<Listed, Placed<KeyFault>> {
        match number {
            SHAFT => Ok(Listed::Shaft),
            POET_AES_FOUR => Ok(Listed::PoetAesFour),
            POET_AES_TEN => Ok(Listed::PoetAesTen),
            MIRROR => Ok(Listed::Mirror),
            SHAFT_PADDED => Ok(Listed::ShaftPadded),
            SHAFT_SPECK => Ok(Listed::ShaftSpeck),
            _ => Err(Placed {
                fault: KeyFault::Suite,
                place: usize::from(number),
            }),
        }
    }
}

/// Calls a function that is generic over the suite, at the type of a listed suite:
/// `at_listed!(suite, seal(key, message))`.
#[macro_export]
macro_rules! at_listed {
    ($listed:expr, $($function:ident)::+ ($($argument:expr),* $(,)?)) => {
        match $listed {
            $crate::Listed::Shaft => {
                $($function)::+::<$crate::Shaft>($($argument),*)
            }
            $crate::Listed::PoetAesFour => {
                $($function)::+::<$crate::PoetAesFour>($($argument),*)
            }
            $crate::Listed::PoetAesTen => {
                $($function)::+::<$crate::PoetAesTen>($($argument),*)
            }
            $crate::Listed::Mirror => {
                $($function)::+::<$crate::Mirror>($($argument),*)
            }
            $crate::Listed::ShaftPadded => {
                $($function)::+::<$crate::ShaftPadded>($($argument),*)
            }
            $crate::Listed::ShaftSpeck => {
                $($function)::+::<$crate::ShaftSpeck>($($argument),*)
            }
        }
    };
}

/// Each listed suite is listed under its own number and no other, its functions are those of its
/// `Suite`, and they are lawful under every key.
pub fn listed_stands() -> u8
    ensures number { NumberLaw }
    ensures lawful { LawfulLaw }
    ensures shaft { IsSuite Listed.Shaft ⟦<Shaft as Suite>⟧.NUMBER ⟦<Shaft as Suite>⟧.under }
    ensures poet_aes_four { IsSuite Listed.PoetAesFour
        ⟦<PoetAesFour as Suite>⟧.NUMBER ⟦<PoetAesFour as Suite>⟧.under }
    ensures poet_aes_ten { IsSuite Listed.PoetAesTen
        ⟦<PoetAesTen as Suite>⟧.NUMBER ⟦<PoetAesTen as Suite>⟧.under }
    ensures mirror { IsSuite Listed.Mirror ⟦<Mirror as Suite>⟧.NUMBER ⟦<Mirror as Suite>⟧.under }
    ensures shaft_padded { IsSuite Listed.ShaftPadded
        ⟦<ShaftPadded as Suite>⟧.NUMBER ⟦<ShaftPadded as Suite>⟧.under }
    ensures shaft_speck { IsSuite Listed.ShaftSpeck
        ⟦<ShaftSpeck as Suite>⟧.NUMBER ⟦<ShaftSpeck as Suite>⟧.under }
{
    0
}
