//! Plays a written session: reads one call to a line from standard input, and prints what every
//! call answered.
#![tactic(auto)]

mod input;
mod lines;
mod playing;
mod report;
#[cfg(test)]
mod tests;
mod written;

use anyhow::anyhow;
use playing::run;
use std::env;
use std::io::{BufReader, IsTerminal};

const HELP: &'static str =
    "replay reads a session from standard input, one call to a line, and prints what each answered:
suite NUMBER, key BYTES, header BYTES, seal or open, body ROOM BYTES, and finish with the tag of
an opening. It takes no arguments but --help.
";

fn main(rt: HostRuntime) -> anyhow::Result<()> {
    if let Some(word) = env::args(&rt)?.nth(1) {
        let word = word.as_str();
        if word != "--help" {
            return Err(anyhow!("replay takes no word but --help, and was given {word}"));
        }
        print!(rt; "{HELP}")?;
        return Ok(());
    }
    let stdin = rt.stdin();
    if stdin.is_terminal() {
        eprintln!(rt; "replay reads a session from the terminal, to its end (control-D)")?;
    }
    let mut reader = BufReader::new(rt.alloc(), stdin)?;
    run(rt.alloc(), &mut reader, &mut rt.stdout())
}
