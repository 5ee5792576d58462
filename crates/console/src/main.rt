//! Reads one delivery from standard input, and prints its parts list or its refusal.
#![tactic(auto)]

use anyhow::anyhow;
use report::run;
use std::env;
use std::io::IsTerminal;

const HELP: &'static str =
    "console reads one delivery from standard input, and prints its parts list, a line an entry; or
`refused` and the number of the refusal. It takes no arguments but --help.
";

fn main(rt: HostRuntime) -> anyhow::Result<()> {
    let word = env::args(&rt)?.nth(1);
    match word.as_deref() {
        None => {
            let mut reader = rt.stdin();
            if reader.is_terminal() {
                eprintln!(rt;
                    "console reads a delivery from the terminal, to its end (control-D)"
                )?;
            }
            run(&mut reader, &mut rt.stdout())?;
        }
        Some("--help") => print!(rt; "{HELP}")?,
        Some(word) => return Err(anyhow!("{word}: console takes no arguments but --help")),
    }
    Ok(())
}
