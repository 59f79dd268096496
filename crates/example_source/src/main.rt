//! How to write a source of marks of one's own, and code over any source: prints what some sources give.

#![tactic(auto)]

ghost use Rattle.std.specs.Prelude.{◌≡◌, IfOk, ◌≢◌};

mod countdown;

use countdown::Countdown;
use marks::{Counter, Exhausted, MarkList, Marks, Reserved, draw_into};
use std::io;

/// Two marks of any source. They differ, whatever the source is.
fn pair<S: Marks>(source: &mut S) -> Result<(u16, u16), Exhausted>
    ensures { IfOk result (λ p. p.0 ≢ p.1) }
{
    Ok((source.draw()?, source.draw()?))
}

/// Prints the first three draws of a source, or up to its refusal.
fn print_draws<S: Marks + Drop>(rt: &impl Print, name: &str, mut source: S) -> io::Result<()> {
    print!(rt; "{name}:")?;
    for _ in 0..3 {
        match source.draw() {
            Ok(mark) => print!(rt; " {mark}")?,
            Err(refusal) => return println!(rt; " {refusal}"),
        }
    }
    println!(rt; " ..")
}

/// The numbers from 1 to 64.
fn full_table() -> [u16; 64] {
    std::array::from_fn(|place| place as u16 + 1)
}

/// Prints what a call for three marks of a countdown from `last` answers, and the table afterwards.
fn print_several(rt: &impl Print, last: u16) -> io::Result<()> {
    let mut out = [7; 3];
    match draw_into(&mut Countdown::new(last), &mut out) {
        Ok(()) => println!(rt; "three of {last}: {out:?}"),
        Err(refusal) => println!(rt; "three of {last}: {refusal}, {out:?}"),
    }
}

fn main(rt: HostRuntime) -> io::Result<()> {
    let heap = rt.alloc();
    print_draws(&rt, "counter from 0", Counter::new(0))?;
    print_draws(&rt, "counter from 65535", Counter::new(65535))?;
    print_draws(&rt, "empty list", MarkList::new(Vec::new(heap)))?;
    print_draws(
        &rt,
        "list with a repeat",
        MarkList::new(vec![in heap; 5, 8, 5]?),
    )?;
    let below = Counter::new(1);
    print_draws(&rt, "1 to 64 reserved", Reserved::new(below, full_table()))?;
    let below = Counter::new(65535);
    print_draws(&rt, "all reserved", Reserved::new(below, [65535; 64]))?;
    print_draws(&rt, "countdown from 2", Countdown::new(2))?;
    print_several(&rt, 3)?;
    print_several(&rt, 2)?;
    match pair(&mut Countdown::new(9)) {
        Ok((first, second)) => println!(rt; "pair of 9: {first} {second}"),
        Err(refusal) => println!(rt; "pair of 9: {refusal}"),
    }
}
