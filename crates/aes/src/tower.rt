//! The steps of AES in a tower of fields, by permutes of vectors.
//!
//! The method is Mike Hamburg's, "Accelerating AES with Vector Permute Instructions", CHES 2009. A
//! table of sixteen bytes fits into a vector, and one permute of that vector looks up sixteen
//! places in it at once. So no byte of the key or the message is ever the address of a load, and
//! the cache tells nothing of them. Sums below are exclusive or, in every field.
//!
//! Look-ups by halves. A byte has 256 values and a table sixteen places, so a byte is looked up by
//! its lower and its upper half. A map that is linear over the bits needs no more: it is the sum of
//! what it makes of the two halves (`HalfTables`). The one part of AES that is not linear is the
//! inverse that SubBytes begins with; the tower is where an inverse can be looked up by halves.
//!
//! The field of sixteen elements. The bits of an element, lowest first, stand for 1, x, x^2 and
//! x^4, where x^4 + x^3 + x^2 + x + 1 = 0. So 1, 2, 4, 15, 8 are the powers of x, and 7 times 14 is
//! 1.
//!
//! The tower. An element t with t^2 = t + 14 makes of it a field of 256 elements: the byte with the
//! upper half i and the lower half k is i + k t. There is one such field but for the names of its
//! elements, so the field of AES goes over into it: f takes 2, the x of FIPS 197, to the byte 166,
//! which solves the same equation here, and takes sums to sums and products to products. A state in
//! the tower has 7 f(b) for each byte b (`INTO_TOWER`). The factor 7 is the method's choice; what
//! is looked up later takes it back.
//!
//! The inverse of y = i + k t. With j = i + k it is y = i (t + 1) + j t, and t + 1 is the other
//! solution of the equation of t. So the product of y and i t + j (t + 1) lies in the small field:
//! it is N = 14 k^2 + i j, and the inverse of y is (i t + j (t + 1)) / N. Five look-ups find
//!
//!     I = 1 / (1/i + 7/k) + j      and      J = 1 / (1/j + 7/k) + i,
//!
//! and 1/I is (i + 14 k) / N, 1/J is (j + 14 k) / N. Hence the inverse of y is
//!
//!     (14 + t) / I + (15 + t) / J.
//!
//! I and J are the two places by which an inverse is known. What AES does to an inverse is linear:
//! SubBytes multiplies its bits by a matrix, MixColumns doubles what comes of it. Such a map of an
//! inverse is the sum of what it makes of (14 + t) / I, looked up at place I, and of (15 + t) / J,
//! looked up at place J (`InverseTables`).
//!
//! No element. 1/0 and 7/0 stand for no element; a sum with no element is none, and 1 over none is
//! zero. The byte 128 stands for it: elements have four bits, so it stays in a sum, and a permute
//! gives 0 at a place of 128 or more. So if I or J is none, its part of the inverse is 0. At y = 0
//! both 1/0 and 7/0 are 128, so their sum is 0, and 1 over that is 128 again: I and J are none, and
//! the inverse is 0, as AES takes the inverse of 0 to be.
//!
//! The constant of SubBytes. MixColumns takes a column of four equal bytes to itself, since
//! 2 + 3 + 1 + 1 = 1. So the constant, 99, may as well be added after MixColumns, with the round
//! key: `enter_round_key` has added it to the key, and `round_in_tower` leaves it out.
//!
//! The way back. InvSubBytes first undoes the affine map, which is linear but for a constant, and
//! then takes the inverse. A state that it is due for is held with the affine map undone, in the
//! tower: that is `UNAFFINE` and the constant 5, which is 232 in the tower. What follows the
//! inverse, InvMixColumns and the affine map of the next round undone, is again looked up at I and
//! J. Here the constant comes with the round key, too, which `unmix_round_key` has taken through
//! InvMixColumns, InvShiftRows and the affine map undone.
ghost use Rattle.std.specs.Prelude.{◌≡◌, ℕ, List, map};
ghost use Rattle.block.specs.Bytes.{Block};
ghost use Rattle.aes.specs.Cipher.{round};
ghost use Rattle.aes.specs.State.{add_round_key, inv_mix_columns, inv_shift_rows, inv_sub_bytes};
ghost use Rattle.aes.specs.State.{sub_bytes};
ghost use Rattle.aes.specs.Tower.{Indexes, by_halves, by_inverse, in_tower, key_in_tower, look_up};
ghost use Rattle.aes.specs.Tower.{place_i, place_j, unaffine_in_tower, unmixed_in_tower};

use crate::tables::{
    AFFINE_CONSTANT, DOUBLED_IN_TOWER, HALF, HalfTables, INTO_TOWER, INVERSES, InverseTables,
    LOWER_HALF, OUT_OF_TOWER, SEVEN_OVER, SHIFTED_NEXT_ROW, SHIFTED_SAME_ROW, SHIFTED_SECOND_ROW,
    SHIFTED_THIRD_ROW, SUBSTITUTED, SUBSTITUTED_IN_TOWER, UNAFFINE, UNAFFINE_9, UNAFFINE_11,
    UNAFFINE_13, UNAFFINE_14, UNAFFINE_CONSTANT, UNSHIFTED_NEXT_ROW, UNSHIFTED_SAME_ROW,
    UNSHIFTED_SECOND_ROW, UNSHIFTED_THIRD_ROW, UNSUBSTITUTED, UNSUBSTITUTED_9, UNSUBSTITUTED_11,
    UNSUBSTITUTED_13, UNSUBSTITUTED_14,
};
use std::simd::prelude::*;

// The entries of a table at the given places: 0 where a place is 128 or more.
#[inline(always)]
fn look_up(table: [u8; 16], places: u8x16) -> u8x16
    requires { Indexes places }
    ensures { result ≡ map (look_up table) places }
{
    u8x16::from_array(table).swizzle_dyn(places)
}

// A linear map of bytes.
#[inline(always)]
fn map_bytes(tables: HalfTables, bytes: u8x16) -> u8x16
    ensures { result ≡ map (by_halves tables) bytes }
{
    let low = look_up(tables.low, bytes & u8x16::splat(LOWER_HALF));
    let high = look_up(tables.high, bytes >> u8x16::splat(HALF));
    low ^ high
}

// The places I and J of the inverse of each byte of the tower.
#[inline(always)]
fn inverse_places(bytes: u8x16) -> (u8x16, u8x16)
    ensures i { result.0 ≡ map place_i bytes }
    ensures j { result.1 ≡ map place_j bytes }
{
    let i = bytes >> u8x16::splat(HALF);
    let k = bytes & u8x16::splat(LOWER_HALF);
    let over = look_up(SEVEN_OVER, k);
    let j = k ^ i;
    let sum_i = look_up(INVERSES, i) ^ over;
    let sum_j = look_up(INVERSES, j) ^ over;
    (look_up(INVERSES, sum_i) ^ j, look_up(INVERSES, sum_j) ^ i)
}

// A linear map of the inverse of each byte of the tower.
#[inline(always)]
fn map_inverses(tables: InverseTables, bytes: u8x16) -> u8x16
    ensures { result ≡ map (by_inverse tables) bytes }
{
    let (i, j) = inverse_places(bytes);
    look_up(tables.by_i, i) ^ look_up(tables.by_j, j)
}

// A state into the tower.
#[inline(always)]
pub(crate) fn enter_tower(state: [u8; 16]) -> [u8; 16]
    ensures { result ≡ map in_tower state }
{
    map_bytes(INTO_TOWER, u8x16::from_array(state)).to_array()
}

// A state out of the tower.
#[inline(always)]
pub(crate) fn leave_tower(state: [u8; 16]) -> [u8; 16]
    ensures { (t : List ℕ) → Block t → state ≡ map in_tower t → result ≡ t }
{
    map_bytes(OUT_OF_TOWER, u8x16::from_array(state)).to_array()
}

/// SubBytes of FIPS 197 on a state, column after column.
pub fn sub_bytes(state: [u8; 16]) -> [u8; 16]
    ensures { result ≡ sub_bytes state }
{
    sub_bytes_leaving(enter_tower(state))
}

/// InvSubBytes of FIPS 197: undoes `sub_bytes`.
pub fn unsub_bytes(state: [u8; 16]) -> [u8; 16]
    ensures { result ≡ inv_sub_bytes state }
{
    end_unsub_bytes(begin_unsub_bytes(state))
}

// A round key for `round_in_tower`: with the constant of SubBytes, into the tower.
pub(crate) fn enter_round_key(key: [u8; 16]) -> [u8; 16]
    ensures { result ≡ map key_in_tower key }
{
    let with_constant = u8x16::from_array(key) ^ u8x16::splat(AFFINE_CONSTANT);
    map_bytes(INTO_TOWER, with_constant).to_array()
}

// A whole round of a state in the tower.
#[inline(always)]
pub(crate) fn round_in_tower(state: [u8; 16], key: [u8; 16]) -> [u8; 16]
    ensures { (t k : List ℕ) → Block t → Block k → state ≡ map in_tower t → key ≡ map key_in_tower k
        → result ≡ map in_tower (round k t) }
{
    let bytes = u8x16::from_array(state);
    let once = map_inverses(SUBSTITUTED_IN_TOWER, bytes);
    let twice = map_inverses(DOUBLED_IN_TOWER, bytes);
    let mixed = twice.swizzle(SHIFTED_SAME_ROW)
        ^ (once ^ twice).swizzle(SHIFTED_NEXT_ROW)
        ^ (once.swizzle(SHIFTED_SECOND_ROW) ^ once.swizzle(SHIFTED_THIRD_ROW))
        ^ u8x16::from_array(key);
    mixed.to_array()
}

// SubBytes of a state in the tower, out of it.
#[inline(always)]
pub(crate) fn sub_bytes_leaving(state: [u8; 16]) -> [u8; 16]
    ensures { (t : List ℕ) → Block t → state ≡ map in_tower t → result ≡ sub_bytes t }
{
    let substituted = map_inverses(SUBSTITUTED, u8x16::from_array(state))
        ^ u8x16::splat(AFFINE_CONSTANT);
    substituted.to_array()
}

// The first half of InvSubBytes: the affine map undone, into the tower.
#[inline(always)]
pub(crate) fn begin_unsub_bytes(state: [u8; 16]) -> [u8; 16]
    ensures { result ≡ map unaffine_in_tower state }
{
    let unaffine = map_bytes(UNAFFINE, u8x16::from_array(state)) ^ u8x16::splat(UNAFFINE_CONSTANT);
    unaffine.to_array()
}

// The second half of InvSubBytes: the inverse, out of the tower.
#[inline(always)]
pub(crate) fn end_unsub_bytes(state: [u8; 16]) -> [u8; 16]
    ensures { (t : List ℕ) → Block t → state ≡ map unaffine_in_tower t → result ≡ inv_sub_bytes t }
{
    map_inverses(UNSUBSTITUTED, u8x16::from_array(state)).to_array()
}

// InvMixColumns, InvShiftRows and the first half of InvSubBytes.
#[inline(always)]
fn unmix(bytes: u8x16) -> u8x16
    ensures { result ≡ unmixed_in_tower bytes }
{
    let by_14 = map_bytes(UNAFFINE_14, bytes);
    let by_11 = map_bytes(UNAFFINE_11, bytes);
    let by_13 = map_bytes(UNAFFINE_13, bytes);
    let by_9 = map_bytes(UNAFFINE_9, bytes);
    by_14.swizzle(UNSHIFTED_SAME_ROW)
        ^ by_11.swizzle(UNSHIFTED_NEXT_ROW)
        ^ (by_13.swizzle(UNSHIFTED_SECOND_ROW) ^ by_9.swizzle(UNSHIFTED_THIRD_ROW))
        ^ u8x16::splat(UNAFFINE_CONSTANT)
}

// A whole round undone, of a state in the tower that the second half of InvSubBytes is due for, to
// where it is due again.
#[inline(always)]
pub(crate) fn undo_round_in_tower(state: [u8; 16], key: [u8; 16]) -> [u8; 16]
    ensures { (t k : List ℕ) → Block t → Block k → state ≡ map unaffine_in_tower t
        → key ≡ unmixed_in_tower k
        → result ≡ unmixed_in_tower (add_round_key k (inv_sub_bytes t)) }
{
    let bytes = u8x16::from_array(state);
    let by_14 = map_inverses(UNSUBSTITUTED_14, bytes);
    let by_11 = map_inverses(UNSUBSTITUTED_11, bytes);
    let by_13 = map_inverses(UNSUBSTITUTED_13, bytes);
    let by_9 = map_inverses(UNSUBSTITUTED_9, bytes);
    let unmixed = by_14.swizzle(UNSHIFTED_SAME_ROW)
        ^ by_11.swizzle(UNSHIFTED_NEXT_ROW)
        ^ (by_13.swizzle(UNSHIFTED_SECOND_ROW) ^ by_9.swizzle(UNSHIFTED_THIRD_ROW))
        ^ u8x16::from_array(key);
    unmixed.to_array()
}

// A round key for `undo_round_in_tower`.
pub(crate) fn unmix_round_key(key: [u8; 16]) -> [u8; 16]
    ensures { result ≡ unmixed_in_tower key }
{
    unmix(u8x16::from_array(key)).to_array()
}

// A whole round undone but for its key, of a state that is not in the tower.
#[inline(always)]
pub(crate) fn undo_round(state: [u8; 16]) -> [u8; 16]
    ensures { result ≡ inv_sub_bytes (inv_shift_rows (inv_mix_columns state)) }
{
    map_inverses(UNSUBSTITUTED, unmix(u8x16::from_array(state))).to_array()
}
