//! A source of marks of one's own.
ghost use Rattle.std.specs.Prelude.{◌≡◌};
ghost use Rattle.example_source.specs.Falling.{below, Falls};
ghost use Rattle.std.proofs.Common.{rules};

use marks::{Exhausted, Marks};

/// Gives the marks from the one that it stands at down to 1, the greatest first.
#[derive(Drop)]
pub struct Countdown {
    /// 0 once all are given, as in `new`.
    next: u16,
}

impl Countdown {
    /// A countdown with the marks from 1 to `last`.
    pub(crate) fn new(last: u16) -> Countdown
        ensures { result.next ≡ last }
    {
        Countdown { next: last }
    }
}

impl Marks for Countdown {
    ghost free = { λ s. below s.next };

    ghost steps = { λ s r t. Falls s.next r t.next };

    ghost marks = { Prim.search rules };

    ghost draws = { Prim.search rules };

    fn draw(&mut self) -> Result<u16, Exhausted> {
        let mark = self.next;
        self.next = mark.checked_sub(1).ok_or(Exhausted { drawn: 0 })?;
        Ok(mark)
    }
}
