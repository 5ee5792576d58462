//! Seals one message under a label with a key, opens it again, and shows that a tag with one bit
//! turned is refused: the whole of it under each listed suite, which is told by its number.
#![tactic(auto)]

mod trips;

use anyhow::anyhow;
use std::env;
use trips::run;

const HELP: &'static str =
    "roundtrip seals a message under each listed suite, opens it again, and shows that a tag with
one bit turned is refused. It reads nothing, and takes no arguments but --help.
";

fn main(rt: HostRuntime) -> anyhow::Result<()> {
    if let Some(word) = env::args(&rt)?.nth(1) {
        let word = word.as_str();
        if word != "--help" {
            return Err(anyhow!("roundtrip takes no word but --help, and was given {word}"));
        }
        print!(rt; "{HELP}")?;
        return Ok(());
    }
    run(&mut rt.stdout())?;
    Ok(())
}
