//! Replays a table of sheets: prints for each line of the standard input what the reader of sheets answers.

#![tactic(auto)]

mod table;

use std::io;
use std::io::{BufRead, BufReader, ErrorKind};
use table::Case;

/// Prints the answer to a line. Blank lines and lines that begin with `#` are no cases.
fn replay(rt: &(impl Print + AllocGlobal), line: &str) -> anyhow::Result<()> {
    if line.is_empty() || line.starts_with('#') {
        return Ok(());
    }
    let case = Case::parse(rt.alloc(), line)?;
    let name = case.name;
    match sheet::read(rt.alloc(), case.bytes.as_slice()) {
        Ok(class) => println!(rt; "{name}: {} members", class.members.len())?,
        Err(refusal) => {
            // What has no number is want of memory.
            let wanting = io::Error::from(ErrorKind::OutOfMemory);
            let numbered = refusal.numbered().ok_or(wanting)?;
            println!(rt; "{name}: {numbered}")?;
        }
    }
    Ok(())
}

fn main(rt: HostRuntime) -> anyhow::Result<()> {
    for line in BufReader::new(rt.alloc(), rt.stdin())?.lines(rt.alloc()) {
        replay(&rt, line?.as_str())?;
    }
    Ok(())
}
