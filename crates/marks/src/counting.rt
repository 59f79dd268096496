//! The counter.
ghost use Rattle.std.specs.Prelude.{◌≡◌};
ghost use Rattle.marks.specs.Counters.{from, counter_free, Counts, CounterDrawsInOrder};
ghost use Rattle.std.proofs.Common.{rules};

use crate::source::{Exhausted, Marks};

/// Gives the marks from the one that it stands at up to 65,535, the least first.
#[derive(Drop)]
pub struct Counter {
    /// 0 once all are given. It is no `Option`, since it is the number that `new` is called with, and 0 is none there too.
    next: u16,
}

impl Counter {
    /// A counter with the marks from `first` on; with none where `first` is 0.
    pub fn new(first: u16) -> Counter
        ensures next { result.next ≡ first }
        ensures free { counter_free result ≡ from first }
    {
        Counter { next: first }
    }
}

impl Marks for Counter {
    ghost free = { counter_free };

    ghost steps = { λ s r t. Counts s.next r t.next };

    ghost marks = { Prim.search rules };

    ghost draws = { Prim.search rules };

    fn draw(&mut self) -> Result<u16, Exhausted> {
        let mark = self.next;
        if mark == 0 {
            return Err(Exhausted { drawn: 0 });
        }
        self.next = mark.wrapping_add(1);
        Ok(mark)
    }
}

/// What is drawn from a counter comes one after another, from the mark that it stands at: a theorem, with no code.
pub fn counter_draws_in_order()
    ensures { CounterDrawsInOrder }
{}
