//! What a source of marks is.
ghost use Rattle.std.specs.Prelude.{◌≡◌, ℕ, Result, Some};
ghost use Rattle.refusals.specs.Told.{told};
ghost use Rattle.marks.specs.declared.source.Exhausted.{Exhausted};
ghost use Rattle.marks.specs.Refusals.{marks_refusal};
ghost use Rattle.marks.specs.Sets.{Set, mark, Within, Draws};

use refusals::{Layer, Numbered};
use std::fmt;

/// No mark is free any more. A call that draws several says how many it drew before; a single draw says 0.
#[derive(Clone, Copy)]
pub struct Exhausted {
    pub drawn: usize,
}

impl Exhausted {
    /// Number, layer and place.
    pub fn numbered(self) -> Numbered
        ensures { result ≡ marks_refusal self }
    {
        Numbered::from(self)
    }
}

impl From<Exhausted> for Numbered {
    ghost from_gives = { λ refusal numbered. numbered ≡ marks_refusal refusal };

    fn from(refusal: Exhausted) -> Numbered {
        Numbered {
            number: 21,
            layer: Layer::Marks,
            place: refusal.drawn,
        }
    }
}

impl fmt::Display for Exhausted {
    ghost output = { λ refusal. Some (told (marks_refusal refusal)) };

    fn fmt<W: fmt::Write>(&self, f: &mut fmt::Formatter<W>) -> fmt::Result {
        self.numbered().fmt(f)
    }
}

/// A source of marks.
pub trait Marks {
    /// The marks that are still free.
    ghost free: { Self → Set };

    /// What a draw does: the source before it, its answer, and the source after it.
    ghost steps: { Self → Result ℕ Exhausted → Self → Type 0 };

    /// Draws a mark.
    fn draw(&mut self) -> Result<u16, Exhausted>
        ensures { steps self.old result self.new };

    /// Only marks are free.
    ghost marks: { (s : Self) → Within (free s) mark };

    /// A draw answers a free mark and takes out just that one, or it refuses, where none is free.
    ghost draws: { (s : Self) (r : Result ℕ Exhausted) (t : Self) → steps s r t → Draws (free s) r (free t) };
}
