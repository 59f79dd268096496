//! The reserved layer.
ghost use Rattle.std.specs.Prelude.{◌≡◌};
ghost use Rattle.marks.specs.Least.{DrawsLeast};
ghost use Rattle.marks.specs.Sets.{except};
ghost use Rattle.marks.specs.Skips.{Skips};
ghost use Rattle.marks.specs.Passing.{skips_draws};
ghost use Rattle.std.proofs.Common.{rules};

use crate::counting::Counter;
use crate::source::{Exhausted, Marks};

/// Gives the marks of another source, but for those in a table, where 0 stands for none.
#[derive(Drop)]
pub struct Reserved<S> {
    below: S,
    /// As many as the rules reserve at most, and in place, so that a layer needs no heap.
    table: [u16; 64],
}

impl<S: Marks> Reserved<S> {
    /// The source `below` without the numbers of `table`.
    pub fn new(below: S, table: [u16; 64]) -> Reserved<S>
        ensures below { result.below ≡ below }
        ensures table { result.table ≡ table }
    {
        Reserved { below, table }
    }
}

impl<S: Marks> Marks for Reserved<S> {
    ghost free = { λ s. except (S.Marks.free s.below) s.table };

    ghost steps = { λ s r t. (t.table ≡ s.table) × Skips S.Marks.steps s.table s.below r t.below };

    ghost marks = { Prim.search rules };

    ghost draws = { λ s r t h.
        let m = S.Marks in
        rw h.0 (skips_draws m.free m.steps S.Marks.draws s.table s.below r t.below h.1) };

    fn draw(&mut self) -> Result<u16, Exhausted> {
        // the loop yields the mark by `break`, so that no variable waits for it
        let mark = loop {
            let mark = self.below.draw()?;
            if !self.table.contains(&mark) {
                break mark;
            }
        };
        Ok(mark)
    }
}

/// Over a counter the layer draws the least mark that is free and not reserved.
#[tactic(auto, using(crate::proofs::Least::least))]
pub fn draw_least(source: &mut Reserved<Counter>) -> Result<u16, Exhausted>
    ensures { DrawsLeast source.old result source.new }
{
    source.draw()
}
