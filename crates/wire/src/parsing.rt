//! One delivery, from bytes: a suite, a key, a header, a ciphertext and a tag, and nothing after
//! them.
ghost use Rattle.std.specs.Prelude.{◌≡◌, ◌≤◌, length};
ghost use Rattle.wire.specs.Wire.{Found, Parsed, Taken, four_ahead, two_ahead};
ghost use Rattle.wire.specs.Wire.{ciphertext_limit, header_limit};

use fault::{ConsoleFault, Placed};

const KEY_LEN: usize = 16;

const TAG_LEN: usize = 16;

/// How many bytes the header of a delivery may have.
pub const HEADER_LIMIT: usize = 4096;

/// How many bytes the ciphertext of a delivery may have.
pub const CIPHERTEXT_LIMIT: usize = 16384;

/// One byte more than the longest delivery has: no more of an input is read, and a longer one is
/// refused at this place.
pub const INPUT_LIMIT: usize = 20520;

/// The parts of one delivery.
#[derive(Clone, Copy)]
pub struct Delivery<'a> {
    /// The number of the suite.
    pub suite: u8,
    /// 16 bytes.
    pub key: &'a [u8],
    /// At most `HEADER_LIMIT` bytes.
    pub header: &'a [u8],
    /// At most `CIPHERTEXT_LIMIT` bytes.
    pub ciphertext: &'a [u8],
    /// 16 bytes.
    pub tag: &'a [u8],
}

// The first n bytes, and the rest.
fn cut(input: &[u8], n: usize) -> Option<(&[u8], &[u8])>
    ensures { Taken (λ s. length s ≡ n) (λ s. s) input.now result }
{
    input.split_at_checked(n)
}

// The same, if n is within a limit.
fn cut_within(input: &[u8], n: usize, most: usize) -> Option<(&[u8], &[u8])>
    ensures { Taken (λ s. (length s ≡ n) × (length s ≤ most)) (λ s. s) input.now result }
{
    if n > most {
        return None;
    }
    cut(input, n)
}

// The header after its length, and the rest.
//
// One function for this and the next would take the number's type, its width and the limit, and be
// longer than the two.
fn cut_header(input: &[u8]) -> Option<(&[u8], &[u8])>
    ensures { Taken (λ s. length s ≤ header_limit) two_ahead input.now result }
{
    let (length, rest) = input.split_first_chunk::<2>()?;
    cut_within(rest, usize::from(u16::from_be_bytes(*length)), HEADER_LIMIT)
}

// The ciphertext after its length, and the rest.
fn cut_ciphertext(input: &[u8]) -> Option<(&[u8], &[u8])>
    ensures { Taken (λ s. length s ≤ ciphertext_limit) four_ahead input.now result }
{
    let (length, rest) = input.split_first_chunk::<4>()?;
    // `usize` has no `From<u32>`.
    cut_within(rest, u32::from_be_bytes(*length) as usize, CIPHERTEXT_LIMIT)
}

// The delivery, if the input is one.
fn read(input: &[u8]) -> Option<Delivery<'_>>
    ensures { Found input.now result }
{
    let (suite, rest) = input.split_first()?;
    let (key, rest) = cut(rest, KEY_LEN)?;
    let (header, rest) = cut_header(rest)?;
    let (ciphertext, tag) = cut_ciphertext(rest)?;
    if tag.len() != TAG_LEN {
        return None;
    }
    Some(Delivery {
        suite: *suite,
        key,
        header,
        ciphertext,
        tag,
    })
}

/// The delivery that the input is.
///
/// # Errors
///
/// Refusal 1 of the console layer for any other input, at its length or at `INPUT_LIMIT`, whichever
/// is less.
pub fn parse(input: &[u8]) -> Result<Delivery<'_>, Placed<ConsoleFault>>
    ensures { Parsed input.now result }
{
    read(input).ok_or(Placed {
        fault: ConsoleFault::Input,
        place: input.len().min(INPUT_LIMIT),
    })
}
