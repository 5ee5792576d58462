//! The fields of an entry, each read from the front of some bytes.
ghost use Rattle.std.specs.Prelude.{◌≡◌, ℕ, ◌+◌, ◌-◌, ◌<◌, ◌≤◌, length, IfOk};
ghost use Rattle.sheet.specs.Table.{bit_of, row_of};
ghost use Rattle.sheet.specs.Entries.{item_of};
ghost use Rattle.sheet.specs.Reading.{read_code, read_drawing, read_item};
ghost use Rattle.sheet.specs.Reading.{read_landing, read_map, read_number, some};
ghost use Rattle.sheet.specs.Calls.{InPlace, Lies};
ghost use Rattle.sheet.specs.Inner.{Ends, HeldTold, Told};

use crate::entry::{Entry, Kind};
use crate::forms::are_signs;
use crate::map::{all_required, has, only_known};
use fault::SheetFault;

// What was read, and the bytes behind it.
type Read<'a, T> = Result<(T, &'a [u8]), SheetFault>;

// The first n bytes. By hand, since the library's `split_at_checked` does not say where its parts
// stand in memory.
fn front(bytes: &[u8], n: usize) -> Read<'_, &[u8]>
    ensures told { Told (λ s. s.now) (some n bytes.now) result }
    ensures long { IfOk result (λ x. (length x.0.now ≡ n) ×
        (length x.1.now + n ≡ length bytes.now)) }
    ensures lies { IfOk result (λ x. (x.0.ref_ptr ≡ bytes.entry.ref_ptr) × Ends bytes.entry x.1) }
{
    if bytes.len() < n {
        return Err(SheetFault::Cut);
    }
    Ok((&bytes[..n], &bytes[n..]))
}

fn read_code(kind: Kind, bytes: &[u8]) -> Read<'_, &[u8]>
    ensures told { Told (λ s. s.now) (read_code (bit_of kind) bytes.now) result }
    ensures long { IfOk result (λ x.
        length x.1.now + (row_of (bit_of kind)).width ≡ length bytes.now) }
    ensures lies { IfOk result (λ x. (x.0.ref_ptr ≡ bytes.entry.ref_ptr) × Ends bytes.entry x.1) }
{
    let (code, rest) = front(bytes, kind.row().width)?;
    if !are_signs(false, code) {
        return Err(SheetFault::Value);
    }
    Ok((code, rest))
}

fn read_number(kind: Kind, bytes: &[u8]) -> Read<'_, u16>
    requires { (row_of (bit_of kind)).width ≡ 2 }
    ensures told { Told (λ n. n) (read_number (bit_of kind) bytes.now) result }
    ensures lies { IfOk result (λ x. Ends bytes.entry x.1) }
{
    let (s, rest) = front(bytes, kind.row().width)?;
    let n = u16::from_be_bytes([s[0], s[1]]);
    if !kind.admits(i32::from(n)) {
        return Err(SheetFault::Value);
    }
    Ok((n, rest))
}

#[tactic(auto, unfolding(crate::specs::Table::row_of))]
fn read_landing(bytes: &[u8]) -> Read<'_, i8>
    ensures told { Told (λ z. z) (read_landing bytes.now) result }
    ensures lies { IfOk result (λ x. Ends bytes.entry x.1) }
{
    let (s, rest) = front(bytes, Kind::Landing.row().width)?;
    let z = s[0].cast_signed();
    if !Kind::Landing.admits(i32::from(z)) {
        return Err(SheetFault::Value);
    }
    Ok((z, rest))
}

#[tactic(auto, unfolding(crate::specs::Table::row_of))]
fn read_drawing(bytes: &[u8]) -> Read<'_, &[u8]>
    ensures told { Told (λ s. s.now) (read_drawing bytes.now) result }
    ensures long { IfOk result (λ x. length x.1.now + length x.0.now ≤ length bytes.now) }
    ensures lies { IfOk result (λ x.
        Lies bytes.entry.ref_ptr (length bytes.now - length x.1.now - length x.0.now) x.0
        × Ends bytes.entry x.1) }
{
    let (head, rest) = front(bytes, Kind::Drawing.row().width)?;
    let n = head[0];
    if !Kind::Drawing.admits(i32::from(n)) {
        return Err(SheetFault::Value);
    }
    let (drawing, rest) = front(rest, usize::from(n))?;
    if !are_signs(true, drawing) {
        return Err(SheetFault::Value);
    }
    Ok((drawing, rest))
}

// A field that is read only if its bit is set.
fn read_held<'a, T, F: FnOnce(&'a [u8]) -> Read<'a, T>>(
    on: bool,
    bytes: &'a [u8],
    read: F,
) -> Read<'a, Option<T>>
    requires { F.pre read bytes }
    ensures { HeldTold on bytes.entry (F.post read bytes.entry) result }
{
    if !on {
        return Ok((None, bytes));
    }
    let (value, rest) = read(bytes)?;
    Ok((Some(value), rest))
}

// The map. Tested in this order: it is cut short, a bit is set that may not be, one is missing.
fn read_map(bytes: &[u8]) -> Read<'_, u16>
    ensures told { Told (λ m. m) (read_map bytes.now) result }
    ensures long { IfOk result (λ x. length x.1.now + 2 ≡ length bytes.now) }
    ensures lies { IfOk result (λ x. Ends bytes.entry x.1) }
{
    let (s, rest) = front(bytes, 2)?;
    let map = u16::from_be_bytes([s[0], s[1]]);
    if !only_known(map) {
        return Err(SheetFault::UnknownBit);
    }
    if !all_required(map) {
        return Err(SheetFault::Missing);
    }
    Ok((map, rest))
}

// An entry.
#[tactic(auto, unfolding(crate::specs::Table::row_of))]
pub(crate) fn read_entry(bytes: &[u8]) -> Read<'_, Entry<&[u8]>>
    ensures told { Told item_of (read_item bytes.now) result }
    ensures lies { IfOk result (λ x. Ends bytes.entry x.1 × (length x.1.now < length bytes.now)
        × ((m : ℕ × ℕ) (n : ℕ) → Lies m n bytes.entry
        → InPlace m n (n + (length bytes.now - length x.1.now)) x.0)) }
{
    let (map, rest) = read_map(bytes)?;
    let (code, rest) = read_code(Kind::Code, rest)?;
    let (parent, rest) = read_held(has(map, Kind::Parent), rest, |b| read_code(Kind::Parent, b))?;
    let (count, rest) = read_number(Kind::Count, rest)?;
    let (landing, rest) = read_held(has(map, Kind::Landing), rest, read_landing)?;
    let (months, rest) = read_held(
        has(map, Kind::Months),
        rest,
        |b| read_number(Kind::Months, b),
    )?;
    let (drawing, rest) = read_held(has(map, Kind::Drawing), rest, read_drawing)?;
    let entry = Entry {
        code,
        parent,
        count,
        landing,
        months,
        drawing,
    };
    Ok((entry, rest))
}
