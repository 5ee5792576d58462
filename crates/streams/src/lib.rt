//! Reading into a buffer and writing of bytes, for the programs. The contracts speak of failures
//! too, which those of `read_exact` and `write_all` do not.
#![tactic(auto)]

ghost use Rattle.std.specs.Prelude.{◌≡◌, ℕ, ◌+◌, ◌<◌, ◌≤◌, length, take, drop, IfOk, OnErr};
ghost use Rattle.std.specs.Io.KnownBytes.{Appends, Consumes, IsAtEnd, Keeps};
ghost use Rattle.streams.specs.Streams.{ReadsUpTo, Wrote};

use std::io;
use std::io::{Error, ErrorKind, Read, Write};

/// Reads until the buffer is full or the input ends, and answers how many bytes of the buffer are
/// filled, from its first on.
///
/// # Errors
///
/// What the reader fails with. The bytes read before that are in the buffer, from its first on.
#[tactic(auto, using(crate::proofs::Steps::more_read))]
pub fn fill<R: Read>(reader: &mut R, buffer: &mut [u8]) -> io::Result<usize>
    ensures filled { IfOk result (λ n. ReadsUpTo (length buffer.old)
        (R.remaining reader.old) (R.remaining reader.new) (take n buffer.new)) }
    ensures within { IfOk result (λ n. n ≤ length buffer.old) }
    ensures failed { OnErr result ((n : ℕ)
        × Consumes (R.remaining reader.old) (R.remaining reader.new) (take n buffer.new)) }
{
    let mut filled = 0;
    for _ in 0..u64::MAX {
        if filled == buffer.len() {
            return Ok(filled);
        }
        let n = read_behind(reader, buffer, filled)?;
        if n == 0 {
            return Ok(filled);
        }
        filled += n;
    }
    Err(Error::from(ErrorKind::TimedOut))
}

// One read, behind the first bytes of the buffer.
fn read_behind<R: Read>(reader: &mut R, buffer: &mut [u8], at: usize) -> io::Result<usize>
    requires { at < length buffer.old }
    ensures front { take at buffer.new ≡ take at buffer.old }
    ensures long { length buffer.new ≡ length buffer.old }
    ensures within { IfOk result (λ n. at + n ≤ length buffer.old) }
    ensures taken { IfOk result (λ n. Consumes
        (R.remaining reader.old) (R.remaining reader.new) (take n (drop at buffer.new))) }
    ensures end { IfOk result (λ n. n ≡ 0 → IsAtEnd (R.remaining reader.new)) }
    ensures failed { OnErr result (Keeps (R.remaining reader.old) (R.remaining reader.new)) }
{
    read_once(reader, &mut buffer[at..])
}

// One read, tried again where it is interrupted.
fn read_once<R: Read>(reader: &mut R, buffer: &mut [u8]) -> io::Result<usize>
    ensures within { IfOk result (λ n. n ≤ length buffer.new) }
    ensures long { length buffer.new ≡ length buffer.old }
    ensures taken { IfOk result (λ n. Consumes
        (R.remaining reader.old) (R.remaining reader.new) (take n buffer.new)) }
    ensures end { IfOk result (λ n. n ≡ 0
        → 0 < length buffer.old → IsAtEnd (R.remaining reader.new)) }
    ensures failed { OnErr result (Keeps (R.remaining reader.old) (R.remaining reader.new)) }
{
    for _ in 0..u64::MAX {
        match reader.read(buffer) {
            Ok(n) => return Ok(n),
            Err(error) => {
                if error.kind() != ErrorKind::Interrupted {
                    return Err(error);
                }
            }
        }
    }
    Err(Error::from(ErrorKind::TimedOut))
}

/// Writes all of the bytes.
///
/// # Errors
///
/// What the writer fails with. Some first bytes are written then, or none.
pub fn put<W: Write>(writer: &mut W, bytes: &[u8]) -> io::Result<()>
    ensures { Wrote (W.contents writer.old) (W.contents writer.new) bytes.now result }
{
    let mut rest = bytes;
    for _ in 0..u64::MAX {
        if rest.is_empty() {
            return Ok(());
        }
        let n = write_once(writer, rest)?;
        if n == 0 {
            return Err(Error::from(ErrorKind::WriteZero));
        }
        rest = &rest[n..];
    }
    Err(Error::from(ErrorKind::TimedOut))
}

// One write, tried again where it is interrupted.
fn write_once<W: Write>(writer: &mut W, bytes: &[u8]) -> io::Result<usize>
    ensures within { IfOk result (λ n. n ≤ length bytes.now) }
    ensures written { IfOk result (λ n. Appends
        (W.contents writer.old) (W.contents writer.new) (take n bytes.now)) }
    ensures failed { OnErr result (Keeps (W.contents writer.old) (W.contents writer.new)) }
{
    for _ in 0..u64::MAX {
        match writer.write(bytes) {
            Ok(n) => return Ok(n),
            Err(error) => {
                if error.kind() != ErrorKind::Interrupted {
                    return Err(error);
                }
            }
        }
    }
    Err(Error::from(ErrorKind::TimedOut))
}
