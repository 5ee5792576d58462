//! How a header is filled up to whole blocks.
ghost use Rattle.std.specs.Prelude.{◌≡◌, ℕ, ◌≤◌, ◌%◌, List, ◌++◌, length, MatchOption};
ghost use Rattle.forms.specs.Filling.{filled, padded};
ghost use Rattle.forms.specs.Laws.{Injective, KeepsBytes};
ghost use Rattle.forms.proofs.Fillings.{filled_bytes, filled_front, filled_whole};
ghost use Rattle.forms.proofs.Fillings.{padded_bytes, padded_front, padded_whole};

use block::complete;
use buffer::Buffer;

// 80 and then zeros.
const PADDING: [u8; 16] = [0x80, 0, 0, 0, 0, 0, 0, 0, 0, 0, 0, 0, 0, 0, 0, 0];

/// A rule of filling: what a header is filled to, which is one whole block or more.
pub trait Filling {
    ghost fill: { List ℕ → List ℕ };

    /// What the last bytes are filled to: a block, or two.
    fn last(held: &Buffer<16>) -> ([u8; 16], Option<[u8; 16]>)
        ensures { MatchOption result.1 (fill held.now ≡ result.0)
            (λ b. fill held.now ≡ result.0 ++ b) };

    // a block that more bytes follow stays as it is
    ghost front: { (p q : List ℕ) → length p ≡ 16 → 1 ≤ length q → fill (p ++ q) ≡ p ++ fill q };

    // one whole block or more comes of it, and bytes of bytes
    ghost whole: { (H : List ℕ) → (16 ≤ length (fill H)) × (length (fill H) % 16 ≡ 0) };

    ghost bytes: { KeepsBytes fill };
}

/// One or more whole blocks stay as they are; any other header gets 80 and zeros.
pub struct WholeStays;

impl Filling for WholeStays {
    ghost fill = { filled };

    ghost front = { filled_front };

    ghost whole = { filled_whole };

    ghost bytes = { filled_bytes };

    fn last(held: &Buffer<16>) -> ([u8; 16], Option<[u8; 16]>) {
        (complete(held.as_slice(), &PADDING), None)
    }
}

/// Every header gets 80 and zeros; whole blocks get a further block. So no two headers are filled
/// alike.
pub struct AlwaysPadded;

impl Filling for AlwaysPadded {
    ghost fill = { padded };

    ghost front = { λ p q l s. padded_front p q l };

    ghost whole = { padded_whole };

    ghost bytes = { padded_bytes };

    fn last(held: &Buffer<16>) -> ([u8; 16], Option<[u8; 16]>)
        ensures blocks { MatchOption result.1 (padded held.now ≡ result.0)
            (λ b. padded held.now ≡ result.0 ++ b) }
        ensures injective { Injective padded }
    {
        let held = held.as_slice();
        let block = complete(held, &PADDING);
        if held.len() < 16 {
            (block, None)
        } else {
            (block, Some(PADDING))
        }
    }
}
