//! A run: a source of marks, a storage number, and the class in hand.
ghost use Rattle.std.specs.Prelude.{◌≡◌, true};
ghost use Rattle.lowering.specs.Hands.{all_written};
ghost use Rattle.lowering.specs.Rows.{rows_of};

use crate::numbers::Numbers;
use crate::tables::Table;
use rules::Held;
use sheet::MOST_MEMBERS;

mod calls;

/// Takes the members of a class and lowers it, one class after another.
#[derive(Drop)]
pub struct Run<S> {
    source: S,
    numbers: Numbers,
    hand: Table<Held, MOST_MEMBERS>,
    ghost written: { all_written (rows_of hand) ≡ true },
}
