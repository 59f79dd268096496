//! The list.
ghost use Rattle.std.specs.Prelude.{◌≡◌, []};
ghost use Rattle.marks.specs.Lists.{fresh, to_give, Gives};
ghost use Rattle.marks.specs.Sets.{among};
ghost use Rattle.marks.specs.Fresh.{left_marks, gives_draws};

use crate::source::{Exhausted, Marks};

/// Gives the numbers of a list in their order, up to the first that is 0 or came before.
#[derive(Drop)]
pub struct MarkList {
    /// All of them: those that are given show which number comes again, and an iterator would not keep them.
    numbers: Vec<u16>,
    /// How many are given.
    given: usize,
}

impl MarkList {
    /// A list of which nothing is given yet.
    pub fn new(numbers: Vec<u16>) -> MarkList
        ensures { to_give result ≡ fresh [] numbers.items }
    {
        MarkList { numbers, given: 0 }
    }
}

impl Marks for MarkList {
    ghost free = { λ s. among (to_give s) };

    ghost steps = { λ s r t. Gives (to_give s) r (to_give t) };

    ghost marks = { λ s. left_marks s.numbers.items s.given };

    ghost draws = { λ s r t h. gives_draws s.numbers.items s.given (to_give t) r h };

    fn draw(&mut self) -> Result<u16, Exhausted> {
        let numbers = self.numbers.as_slice();
        match numbers.get(self.given) {
            Some(mark) if *mark != 0 && !numbers[..self.given].contains(mark) => {
                self.given += 1;
                Ok(*mark)
            }
            _ => Err(Exhausted { drawn: 0 }),
        }
    }
}
