//! The fields of a line, put one behind the other into a buffer, as far as there is room.
ghost use Rattle.std.specs.Prelude.{◌≡◌, ℕ, List, [], ◌∷◌, ◌++◌, take, decimal};
ghost use Rattle.std.specs.Fmt.{signed_decimal};
ghost use Rattle.listing.specs.Lines.{shown};

use crate::lines::LINE_LIMIT;
use buffer::Buffer;

// Room for the line of any good entry.
pub(crate) type Line = Buffer<LINE_LIMIT>;

// What a field may hold: its text is put behind what a line has.
pub(crate) trait Shown {
    ghost text: { Self → List ℕ };

    fn put(self, line: &mut Line)
        ensures { line.new ≡ take LINE_LIMIT (line.old ++ text self) };
}

impl Shown for &[u8] {
    ghost text = { λ s. s.now };

    fn put(self, line: &mut Line) {
        line.extend(self);
    }
}

impl Shown for u32 {
    ghost text = { decimal };

    fn put(self, line: &mut Line) {
        put_decimal(line, self);
    }
}

impl Shown for u16 {
    ghost text = { decimal };

    fn put(self, line: &mut Line) {
        put_decimal(line, u32::from(self));
    }
}

impl Shown for i8 {
    ghost text = { signed_decimal };

    fn put(self, line: &mut Line) {
        if self < 0 {
            line.push(b'-');
        }
        put_decimal(line, u32::from(self.unsigned_abs()));
    }
}

// A number in decimal, the last digit last. By hand, since `write!` may fail, as far as its
// contract says, and the line of a good entry may not.
fn put_decimal(line: &mut Line, n: u32)
    ensures { line.new ≡ take LINE_LIMIT (line.old ++ decimal n) }
{
    if n >= 10 {
        put_decimal(line, n / 10);
    }
    // A digit fits; `try_from` would add a refusal that cannot come.
    line.push(b'0' + (n % 10) as u8);
}

// A field, or a dash where there is none, and the byte that ends it.
pub(crate) fn put_field<T: Shown>(line: &mut Line, field: Option<T>, stop: u8)
    ensures { line.new ≡ take LINE_LIMIT (line.old ++ (shown T.text field ++ (stop ∷ []))) }
{
    match field {
        Some(value) => value.put(line),
        None => line.push(b'-'),
    }
    line.push(stop);
}
