//! Worked examples, as theorems.
ghost use Rattle.lowering.specs.Examples.{ExamplesStand};

/// The worked class and nearly all of the short examples come out as the rules say: a theorem, with no code.
pub fn examples_stand()
    ensures { ExamplesStand }
{}
