//! Writes entries into a buffer.
ghost use Rattle.std.specs.Prelude.{◌≡◌, ℕ, ◌+◌, ◌≤◌, ◌++◌, List, length, map, take, drop, IfOk};
ghost use Rattle.std.specs.Option.{option_map};
ghost use Rattle.sheet.specs.Table.{set_below};
ghost use Rattle.sheet.specs.Entries.{DrawingForm, Good, Held, bytes, counted, field_count, held};
ghost use Rattle.sheet.specs.Entries.{item_map, item_of};
ghost use Rattle.sheet.specs.Calls.{Put, Wrote};
ghost use Rattle.sheet.specs.Laws.{SheetLaw, WritingLaw, WroteAll, WrittenFromStart};
ghost use Rattle.sheet.specs.Inner.{Measured};

use crate::entry::Entry;
use crate::forms::is_good;
use crate::map::map_of;
use buffer::Buffer;
use fault::{Placed, SheetFault};

// The most bytes that an entry has.
const ENTRY_LIMIT: usize = 56;

// The bytes of an entry, if it is good.
fn encode(e: Entry<&[u8]>) -> Buffer<ENTRY_LIMIT>
    requires { Good (item_of e) }
    ensures { result ≡ bytes (item_of e.entry) }
{
    let mut out = Buffer::new();
    out.extend(&map_of(e).to_be_bytes());
    out.extend(e.code);
    if let Some(parent) = e.parent {
        out.extend(parent);
    }
    out.extend(&e.count.to_be_bytes());
    if let Some(landing) = e.landing {
        out.push(landing.cast_unsigned());
    }
    if let Some(months) = e.months {
        out.extend(&months.to_be_bytes());
    }
    put_drawing(&mut out, e.drawing);
    out
}

// A drawing behind its length, if there is one, behind all that was put before.
fn put_drawing(out: &mut Buffer<ENTRY_LIMIT>, drawing: Option<&[u8]>)
    requires { Held DrawingForm (option_map (λ s. s.now) drawing) }
    ensures { (all : List ℕ) → out.old ≡ take ENTRY_LIMIT all
        → out.new ≡ take ENTRY_LIMIT (all ++ held counted (option_map (λ s. s.now) drawing.entry)) }
{
    if let Some(drawing) = drawing {
        // A drawing of good form has at most 32 bytes; `try_from` would add a refusal that cannot
        // come.
        out.push(drawing.len() as u8);
        out.extend(drawing);
    }
}

/// Puts bytes at a place of the buffer, and answers the place behind them.
///
/// # Errors
///
/// 6 where there is no room; the buffer is then unaltered.
pub fn put(s: &[u8], buf: &mut [u8], at: usize) -> Result<usize, Placed<SheetFault>>
    ensures { Put buf.old buf.new at s.now result }
{
    if at > buf.len() || buf.len() - at < s.len() {
        return Err(Placed {
            fault: SheetFault::Room,
            place: at,
        });
    }
    let end = at + s.len();
    buf[at..end].copy_from_slice(s);
    Ok(end)
}

/// Writes one entry at a place of the buffer, and answers the place where the next would begin.
///
/// # Errors
///
/// 13 if a value is outside its form, else 6 if there is no room; the buffer is then unaltered.
pub fn write(e: Entry<&[u8]>, buf: &mut [u8], at: usize) -> Result<usize, Placed<SheetFault>>
    ensures { Wrote buf.old buf.new at (item_of e.entry) result }
{
    if !is_good(e) {
        return Err(Placed {
            fault: SheetFault::Value,
            place: at,
        });
    }
    let out = encode(e);
    put(out.as_slice(), buf, at)
}

/// How many fields an entry has: as many as bits are set in its map.
pub fn fields(e: Entry<&[u8]>) -> u32
    ensures bits { result ≡ set_below (item_map (item_of e.entry)) 16 }
    ensures fields { result ≡ field_count (item_of e.entry) }
{
    map_of(e).count_ones()
}

// Where a list of entries ends that begins at 0, if it is good and has so much room.
fn measure(entries: &[Entry<&[u8]>], room: usize) -> Result<usize, Placed<SheetFault>>
    ensures { Measured (map item_of entries.now) room result }
{
    let mut at = 0;
    for e in entries {
        if !is_good(*e) {
            return Err(Placed {
                fault: SheetFault::Value,
                place: at,
            });
        }
        let out = encode(*e);
        let size = out.as_slice().len();
        if room - at < size {
            return Err(Placed {
                fault: SheetFault::Room,
                place: at,
            });
        }
        at += size;
    }
    Ok(at)
}

// Puts an entry at a place that has room for it, and answers the place behind it.
fn put_entry(e: Entry<&[u8]>, buf: &mut [u8], at: usize) -> usize
    requires good { Good (item_of e) }
    requires room { at + length (bytes (item_of e)) ≤ length buf.old }
    ensures end { result ≡ at + length (bytes (item_of e.entry)) }
    ensures placed { buf.new ≡ take at buf.old ++ (bytes (item_of e.entry) ++ drop result buf.old) }
{
    let out = encode(e);
    let s = out.as_slice();
    let end = at + s.len();
    buf[at..end].copy_from_slice(s);
    end
}

/// Writes a whole list of entries from the buffer's first byte on, as a sheet, and answers how many
/// bytes it has.
///
/// # Errors
///
/// The refusal of the first entry that `write` would refuse behind those before it, at the place
/// where it would begin; the buffer is then unaltered.
pub fn write_all(entries: &[Entry<&[u8]>], buf: &mut [u8]) -> Result<usize, Placed<SheetFault>>
    ensures all { WroteAll (map item_of entries.now) buf.old buf.new result }
    ensures sheet { IfOk result (λ n. WrittenFromStart (map item_of entries.now) (take n buf.new)) }
{
    let end = measure(entries, buf.len())?;
    let mut at = 0;
    for e in entries {
        at = put_entry(*e, buf, at);
    }
    Ok(end)
}

/// A list written end to end leaves its sheet in the buffer, and can be written exactly if it is
/// good and has room.
pub fn writing_stands() -> u8
    ensures writes { WritingLaw }
    ensures sheets { SheetLaw }
{
    0
}
