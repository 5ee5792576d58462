//! Prints the figures of docs/FORMAT.md: under each listed suite a few seals with their
//! intermediate values, and deliveries with what is printed for them. The gate compares them with
//! the page.
#![tactic(auto)]

mod deliveries;
mod rows;

use anyhow::anyhow;
use deliveries::deliveries;
use hexits::Hex;
use rows::show;
use std::alloc::Global;
use std::io::Write;
use std::{env, io};
use suite::{Permutation, Suite};
use suites::{
    Aes128, BlockCipher, KeyedHash, Keys, Mirror, PoetAesFour, PoetAesTen, Shaft, ShaftPadded,
    ShaftSpeck, Speck, big_endian,
};

const KEY: [u8; 16] = [0, 1, 2, 3, 4, 5, 6, 7, 8, 9, 10, 11, 12, 13, 14, 15];

const HEADER: [u8; 17] = [
    0xa0, 0xa1, 0xa2, 0xa3, 0xa4, 0xa5, 0xa6, 0xa7, 0xa8, 0xa9, 0xaa, 0xab, 0xac, 0xad, 0xae, 0xaf,
    0xb0,
];

const MESSAGE: [u8; 33] = [
    0x10, 0x11, 0x12, 0x13, 0x14, 0x15, 0x16, 0x17, 0x18, 0x19, 0x1a, 0x1b, 0x1c, 0x1d, 0x1e, 0x1f,
    0x20, 0x21, 0x22, 0x23, 0x24, 0x25, 0x26, 0x27, 0x28, 0x29, 0x2a, 0x2b, 0x2c, 0x2d, 0x2e, 0x2f,
    0x30,
];

const HELP: &'static str =
    "vectors prints the figures of the format's page: seals under each listed suite with their
intermediate values, and deliveries with what is printed for them. It takes no arguments but --help.
";

fn main(rt: HostRuntime) -> anyhow::Result<()> {
    let word = env::args(&rt)?.nth(1);
    match word.as_deref() {
        None => run(rt.alloc(), &mut rt.stdout())?,
        Some("--help") => print!(rt; "{HELP}")?,
        Some(word) => return Err(anyhow!("{word}: vectors takes no arguments but --help")),
    }
    Ok(())
}

/// Writes the figures of every suite, and then the deliveries.
fn run<W: Write>(alloc: Global, writer: &mut W) -> anyhow::Result<()> {
    shaft::<Shaft, Aes128, W>(writer)?;
    submission::<PoetAesFour, W>(writer)?;
    submission::<PoetAesTen, W>(writer)?;
    head(writer, Mirror::NUMBER)?;
    seals::<Mirror, W>(writer)?;
    shaft::<ShaftPadded, Aes128, W>(writer)?;
    shaft::<ShaftSpeck, Speck, W>(writer)?;
    deliveries(alloc, writer)
}

// The suite S is made of the cipher B.
fn shaft<S: Suite, B: BlockCipher + Drop, W: Write>(writer: &mut W) -> io::Result<()> {
    head(writer, S::NUMBER)?;
    let delivered = B::under(KEY);
    value(writer, "K", &delivered.encrypt(big_endian(1)))?;
    value(writer, "K_F", &delivered.encrypt(big_endian(2)))?;
    seals::<S, W>(writer)
}

fn submission<S: Suite, W: Write>(writer: &mut W) -> io::Result<()> {
    head(writer, S::NUMBER)?;
    let keys = Keys::new::<Aes128>(KEY);
    value(writer, "K", &keys.cipher)?;
    value(writer, "L", &keys.mask)?;
    value(writer, "K_F", &keys.chain)?;
    seals::<S, W>(writer)
}

fn head<W: Write>(writer: &mut W, suite: u8) -> io::Result<()> {
    writeln!(writer, "suite {suite}")?;
    value(writer, "key", &KEY)
}

// Messages and headers of a byte less than a block, of whole blocks, and of a byte more.
fn seals<S: Suite, W: Write>(writer: &mut W) -> io::Result<()> {
    show::<S, W>(writer, &[], &MESSAGE[..1])?;
    show::<S, W>(writer, &HEADER[..15], &MESSAGE[..16])?;
    show::<S, W>(writer, &HEADER[..16], &MESSAGE[..17])?;
    show::<S, W>(writer, &HEADER, &MESSAGE)?;
    writeln!(writer)
}

// A value behind its name; `-` stands for no bytes.
fn value<W: Write>(writer: &mut W, name: &str, bytes: &[u8]) -> io::Result<()> {
    if bytes.is_empty() {
        writeln!(writer, "{name:<11}-")
    } else {
        writeln!(writer, "{name:<11}{}", Hex(bytes))
    }
}
