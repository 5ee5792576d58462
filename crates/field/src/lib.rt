//! Bytes as the field of 256 elements of FIPS 197: doubling, and the substitution of bytes by
//! tables.
//!
//! A function whose name ends in `_stands` does nothing: its contract is a theorem, and the crate
//! is refused without the proof.
#![tactic(auto)]

ghost use Rattle.field.specs.Field.{xtime};
ghost use Rattle.field.specs.Laws.{InverseLaw, ProductOfSum, Remixes, SubstitutionLaw, Unmixes};
ghost use Rattle.field.specs.Substitution.{sub, unsub};
ghost use Rattle.std.specs.Prelude.{◌≡◌};

mod sbox;
mod unsbox;

/// x times b, modulo the polynomial of the field.
pub fn double(b: u8) -> u8
    ensures { result ≡ xtime b }
{
    (b << 1) ^ (27 * (b >> 7))
}

/// The byte that b is replaced by: SubBytes of FIPS 197, for one byte.
pub fn sub_byte(b: u8) -> u8
    ensures { result ≡ sub b }
{
    sbox::table()[usize::from(b)]
}

/// The byte that b replaces: InvSubBytes of FIPS 197, for one byte.
pub fn unsub_byte(b: u8) -> u8
    ensures { result ≡ unsub b }
{
    unsbox::table()[usize::from(b)]
}

/// Products go through sums, and every byte but 0 has an inverse.
pub fn product_stands() -> u8
    ensures sums { ProductOfSum }
    ensures inverses { InverseLaw }
{
    0
}

/// Substitution and its inverse undo one another.
pub fn substitution_stands() -> u8
    ensures { SubstitutionLaw }
{
    0
}

/// The two matrices undo one another, in both orders.
pub fn columns_stands() -> u8
    ensures unmixes { Unmixes }
    ensures remixes { Remixes }
{
    0
}
