//! The console: a script of commands on standard input, one answer a line on standard output.

#![tactic(auto)]

use session::Session;
use std::io::{BufRead, BufReader};

// Answers each line of the script, and prints the answers.
fn main(rt: HostRuntime) -> anyhow::Result<()> {
    let heap = rt.alloc();
    let mut input = BufReader::new(heap, rt.stdin())?;
    let mut session = Session::new(heap)?;
    let mut line = Vec::new(heap);
    // Every loop has to end, and no script has as many lines as this.
    for _ in 0..u64::MAX {
        line.clear();
        if input.read_until(b'\n', &mut line)? == 0 {
            break;
        }
        if let Some(answer) = session.answer(heap, line.as_slice())? {
            println!(rt; "{answer}")?;
        }
    }
    Ok(())
}
