//! Reads one delivery from standard input, answers the calls that its arguments name on a new
//! reader over the opened sheet, and prints what each answered.
#![tactic(auto)]

mod browsing;
mod shown;
#[cfg(test)]
mod tests;
mod words;

use anyhow::anyhow;
use browsing::run;
use reading::Call;
use std::env;
use std::io::IsTerminal;
use wire::CIPHERTEXT_LIMIT;
use words::{WORDS, ask_of};

const HELP: &'static str =
    "browse WORD.. reads one delivery from standard input, opens its sheet, and prints what a reader
answers. A word asks for the following entry (next), or for a field of the entry last answered
(code, parent, count, landing, months, drawing).
";

fn main(rt: HostRuntime) -> anyhow::Result<()> {
    let mut opened = [0; CIPHERTEXT_LIMIT];
    let mut calls = Vec::new(rt.alloc());
    for word in env::args(&rt)?.skip(1) {
        let word = word.as_str();
        if word == "--help" {
            print!(rt; "{HELP}")?;
            return Ok(());
        }
        match ask_of(word) {
            Some(ask) => calls.push(Call { ask, reply: None })?,
            None => return Err(anyhow!("{word} is no call; the calls are {WORDS}")),
        }
    }
    let mut reader = rt.stdin();
    if reader.is_terminal() {
        eprintln!(rt; "browse reads a delivery from the terminal, to its end (control-D)")?;
    }
    run(
        rt.alloc(),
        &mut reader,
        &mut rt.stdout(),
        &mut opened,
        &mut calls,
    )?;
    Ok(())
}
