//! Reads a sheet from the standard input, and prints the class that it describes, or why it is refused.

#![tactic(auto)]

mod class;
mod member;
mod text;

use class::Listing;
use formats::MOST_BYTES;
use sheet::Sheet;
use std::alloc::Global;
use std::io;
use std::io::{ErrorKind, Read};
use std::process::ExitCode;

/// No more of the input is read than this: with one byte over its limit a sheet is refused, whatever follows.
const MOST_INPUT: usize = MOST_BYTES + 1;

fn read_input(alloc: Global, input: impl Read + Drop) -> io::Result<Vec<u8>> {
    let mut bytes = Vec::with_capacity(alloc, MOST_INPUT)?;
    input.take(MOST_INPUT as u64).read_to_end(&mut bytes)?;
    Ok(bytes)
}

/// Prints the class or the refusal, and says how the program ends. A refusal is an answer, and no error.
fn run(rt: &(impl Print + AllocGlobal), input: impl Read + Drop) -> io::Result<ExitCode> {
    let input = read_input(rt.alloc(), input)?;
    let bytes = input.as_slice();
    match sheet::read(rt.alloc(), bytes) {
        Ok(class) => {
            let listing = Listing {
                class: &class,
                sheet: Sheet::first(bytes),
            };
            rt.print(listing)?;
            Ok(ExitCode::SUCCESS)
        }
        Err(refusal) => {
            // What has no number is want of memory.
            let numbered = refusal.numbered().ok_or(ErrorKind::OutOfMemory)?;
            rt.println(numbered)?;
            Ok(ExitCode::FAILURE)
        }
    }
}

fn main(rt: HostRuntime) -> ExitCode {
    match run(&rt, rt.stdin()) {
        Ok(code) => code,
        Err(error) => {
            let _ = eprintln!(rt; "show: {error}");
            ExitCode::FAILURE
        }
    }
}
