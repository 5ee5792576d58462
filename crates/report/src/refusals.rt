//! The line of a refusal.
ghost use Rattle.std.specs.Prelude.{◌≡◌, ◌<◌, ◌++◌, take, decimal};
ghost use Rattle.report.specs.Report.{refusal_line};

use buffer::Buffer;
use fault::{ConsoleFault, Fault, Placed};

// Room for the word, a number of two digits and a line feed.
type Line = Buffer<11>;

// Puts a number below 100 behind what a line has, in decimal.
fn put_number(line: &mut Line, number: u8)
    requires { number < 100 }
    ensures { line.new ≡ take 11 (line.old ++ decimal number) }
{
    if number < 10 {
        line.extend(&[b'0' + number]);
    } else {
        line.extend(&[b'0' + number / 10, b'0' + number % 10]);
    }
}

pub(crate) fn line_of(refused: Placed<ConsoleFault>) -> Line
    ensures { result ≡ refusal_line refused }
{
    let mut line = Buffer::new();
    line.extend(b"refused ");
    put_number(&mut line, refused.fault.number());
    line.extend(b"\n");
    line
}
