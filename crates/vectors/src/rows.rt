//! A seal row by row, from a suite's parts, as the equations of docs/FORMAT.md write it; and the
//! same seal by the call.
use crate::{KEY, value};
use block::{complete, xor};
use hexits::Hex;
use session::seal;
use std::io;
use std::io::Write;
use suite::{ChainingHash, HeaderDigest, Keyed, Permutation, Suite};

// The longest message that is shown has three blocks.
const MOST: usize = 48;

/// Writes header, message and rows of one seal, and then its ciphertext and tag as `seal` gives
/// them.
pub(crate) fn show<S: Suite, W: Write>(
    writer: &mut W,
    header: &[u8],
    message: &[u8],
) -> io::Result<()> {
    let Keyed {
        permutation,
        hash,
        mut digest,
    } = S::set_up(KEY);
    digest.absorb(header);
    let tau = digest.finish();
    let mut x = tau;
    let mut y = xor(tau, S::encode(1));
    writeln!(writer)?;
    value(writer, "header", header)?;
    value(writer, "tau", &tau)?;
    value(writer, "Y_0", &y)?;
    value(writer, "message", message)?;

    let (front, last) = message.split_at(message.len().saturating_sub(1) / 16 * 16);
    for (i, block) in (1..MOST / 16).zip(front.chunks_exact(16)) {
        x = xor(hash.hash(x), complete(block, &[0; 16]));
        y = permutation.encrypt(x);
        row(writer, i, &x, &y)?;
    }
    let mask = permutation.encrypt(S::encode(8 * message.len().min(MOST) as u64));
    let filled = complete(last, &tau);
    x = xor(xor(hash.hash(x), filled), mask);
    let over = hash.hash(y);
    y = permutation.encrypt(x);
    let given = xor(xor(over, y), mask);
    let inner = permutation.encrypt(xor(hash.hash(x), tau));
    let z = xor(xor(hash.hash(y), inner), tau);
    value(writer, "S", &mask)?;
    value(writer, "M*", &filled)?;
    row(writer, front.len() / 16 + 1, &x, &y)?;
    value(writer, "C*", &given)?;
    value(writer, "Z", &z)?;

    let mut out = [0; MOST];
    let mut tag = [0; 16];
    match seal::<S>(&KEY, header, message, &mut out, &mut tag) {
        Ok(n) => value(writer, "ciphertext", &out[..n.min(MOST)])?,
        Err(fault) => writeln!(writer, "{fault}")?,
    }
    value(writer, "tag", &tag)
}

/// The tag of a ciphertext of one block that begins as `tag` does, and passes the second test of an
/// opening.
pub(crate) fn half_right<S: Suite>(
    key: [u8; 16],
    header: &[u8],
    ciphertext: &[u8],
    tag: &[u8; 16],
) -> [u8; 16] {
    let Keyed {
        permutation,
        hash,
        mut digest,
    } = S::set_up(key);
    digest.absorb(header);
    let tau = digest.finish();
    let mask = permutation.encrypt(S::encode(8 * ciphertext.len().min(16) as u64));
    let first = hash.hash(xor(tau, S::encode(1)));
    let y = xor(xor(first, complete(ciphertext, tag)), mask);
    let inner = permutation.encrypt(xor(hash.hash(permutation.decrypt(y)), tau));
    let z = xor(xor(hash.hash(y), inner), tau);
    complete(&tag[..16 - ciphertext.len().min(16)], &z)
}

fn row<W: Write>(writer: &mut W, i: usize, x: &[u8; 16], y: &[u8; 16]) -> io::Result<()> {
    writeln!(writer, "X_{i:<9}{}", Hex(x))?;
    writeln!(writer, "Y_{i:<9}{}", Hex(y))
}
