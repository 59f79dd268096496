//! The names of a class, which are handed out in drawing order.
ghost use Rattle.std.specs.Prelude.{◌≡◌, [], ◌∷◌};
ghost use Rattle.rules.specs.Draws.{named, if_so};
ghost use Rattle.rules.specs.Walks.{some_if};
ghost use Rattle.lowering.specs.Left.{after};

use rules::{Name, Stem};
use std::marker::Model;

/// The marks that were drawn for a class, so far as they are still to be handed out. A clause sees them as a list.
#[derive(Drop)]
pub(crate) struct Names<'m> {
    left: &'m [u16],
}

impl<'m> Model for Names<'m> {
    ghost use Rattle.std.specs.Prelude.{ℕ, List};

    ghost Value = { List ℕ };

    ghost view = { λ names. names.left.now };
}

impl<'m> Names<'m> {
    /// The names that have these marks, in this order.
    pub(crate) fn of(marks: &'m [u16]) -> Names<'m>
        ensures { result ≡ marks.now }
    {
        Names { left: marks }
    }

    /// The next name. As many marks are drawn as the class needs, so that there is one; 0 is no mark.
    pub(crate) fn next(&mut self, stem: Stem) -> Name
        ensures name { result ≡ named stem self.old 0 }
        ensures left { self.new ≡ after (stem ∷ []) self.old }
    {
        let mark = match self.left {
            [first, rest @ ..] => {
                self.left = rest;
                *first
            }
            [] => 0,
        };
        Name { stem, mark }
    }

    /// The next name, if it is wanted.
    pub(crate) fn next_if(&mut self, wanted: bool, stem: Stem) -> Option<Name>
        ensures name { result ≡ some_if wanted (named stem self.old 0) }
        ensures left { self.new ≡ after (if_so wanted (stem ∷ [])) self.old }
    {
        // not `wanted.then(..)`, whose clauses do not say what the closure leaves behind the `&mut`
        if wanted { Some(self.next(stem)) } else { None }
    }
}
