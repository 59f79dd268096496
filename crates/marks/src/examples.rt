//! Worked examples, as theorems.
ghost use Rattle.std.specs.Prelude.{◌≡◌, IfOk, Ok, Err};

use crate::counting::Counter;
use crate::listing::MarkList;
use crate::reserving::Reserved;
use crate::source::{Exhausted, Marks};
use std::alloc::{AllocError, Global};

/// A counter from 1, where 1 and 3 are reserved.
pub fn two_then_four() -> (Result<u16, Exhausted>, Result<u16, Exhausted>)
    ensures { (result.0 ≡ Ok 2) × (result.1 ≡ Ok 4) }
{
    let mut table = [0; 64];
    table[0] = 1;
    table[1] = 3;
    let mut source = Reserved::new(Counter::new(1), table);
    (source.draw(), source.draw())
}

/// A list of 7, 0 and 9 ends at the 0.
pub fn seven_then_none(
    heap: Global,
) -> Result<(Result<u16, Exhausted>, Result<u16, Exhausted>), AllocError>
    ensures { IfOk result (λ p. (p.0 ≡ Ok 7) × (p.1 ≡ Err (record { drawn = 0 }))) }
{
    let mut source = MarkList::new(vec![in heap; 7, 0, 9]?);
    Ok((source.draw(), source.draw()))
}
