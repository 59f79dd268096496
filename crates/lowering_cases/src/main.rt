//! Lowers the class of each line of the standard input, and prints what the record has of it.
//!
//! The loop over the lines is that of `reader_cases`: in a library it would be a public call, of which no contract can say what is read.

#![tactic(auto)]

mod line;
mod told;

use line::Case;
use lowering::{Record, Run};
use marks::Counter;
use sheet::{Class, Sheet};
use std::io;
use std::io::{BufRead, BufReader, ErrorKind};
use told::Lowered;

/// Lowers a class that was read, and prints the record or the refusal.
fn lower(rt: &(impl Print + AllocGlobal), case: &Case<'_>, class: &Class) -> anyhow::Result<()> {
    let name = case.name;
    let mut run = Run::new(rt.alloc(), Counter::new(case.first), case.storage)?;
    for member in class.members.iter() {
        if let Err(refusal) = run.add(*member) {
            println!(rt; "{name}: {}", refusal.numbered())?;
        }
    }
    let mut record = Record::new(rt.alloc())?;
    match run.lower(class.superclass.is_some(), &mut record) {
        Ok(()) => {
            let sheet = Sheet::first(case.bytes.as_slice());
            let record = &record;
            println!(rt; "{name}:")?;
            rt.print(Lowered { record, sheet })?;
        }
        Err(refusal) => println!(rt; "{name}: {}", refusal.numbered())?,
    }
    Ok(())
}

/// Prints the answer to a line. Blank lines and lines that begin with `#` are no cases.
fn replay(rt: &(impl Print + AllocGlobal), line: &str) -> anyhow::Result<()> {
    if line.is_empty() || line.starts_with('#') {
        return Ok(());
    }
    let case = Case::parse(rt.alloc(), line)?;
    match sheet::read(rt.alloc(), case.bytes.as_slice()) {
        Ok(class) => lower(rt, &case, &class),
        Err(refusal) => {
            // What has no number is want of memory.
            let wanting = io::Error::from(ErrorKind::OutOfMemory);
            println!(rt; "{}: {}", case.name, refusal.numbered().ok_or(wanting)?)?;
            Ok(())
        }
    }
}

fn main(rt: HostRuntime) -> anyhow::Result<()> {
    for line in BufReader::new(rt.alloc(), rt.stdin())?.lines(rt.alloc()) {
        replay(&rt, line?.as_str())?;
    }
    Ok(())
}
