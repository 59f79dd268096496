//! What a class gets before it is lowered.
ghost use Rattle.std.specs.Prelude.{◌≡◌, ◌+◌, ◌≤◌, length, is_ok, IfOk, if◌then◌else◌, count_by, OnOk};
ghost use Rattle.rules.specs.Members.{accessor};
ghost use Rattle.rules.specs.Draws.{draws};
ghost use Rattle.lowering.specs.Hands.{seen_hand};
ghost use Rattle.lowering.specs.Rows.{rows_of};
ghost use Rattle.lowering.specs.Supplies.{supplied, answer_of, Supplied};

use crate::checks::{check_constructors, number_accessors};
use crate::draws::{MOST_MARKS, count_draws};
use crate::faults::LowerFault;
use crate::numbers::{Numbers, Restore};
use crate::tables::Table;
use marks::{Marks, draw_into};
use rules::Held;
use sheet::MOST_MEMBERS;

// `hand` and `derived` stay two parameters: walk 1 writes into the hand, so that only the counts and the checks would take a struct.
/// Checks the members, raises the storage number by their accessors, and draws the marks of the class into the first places of
/// `marks`; it answers how many these are. Refused, it leaves the storage number as it was.
///
/// The answer is a number and not a slice: the buffer is lent for as long as the marks are drawn, and what was drawn is read after
/// the storage number is written back.
#[tactic(auto, using(crate::proofs::Checking::numbers_fit))]
pub(crate) fn supply<S: Marks>(
    hand: &Table<Held, MOST_MEMBERS>,
    derived: bool,
    source: &mut S,
    numbers: &mut Numbers,
    marks: &mut [u16; MOST_MARKS],
) -> Result<usize, LowerFault>
    ensures answer { answer_of result ≡ supplied derived numbers.old.storage (S.free source.old) (seen_hand (rows_of hand.now)) }
    ensures total { IfOk result (λ n. n ≡ length (draws derived (seen_hand (rows_of hand.now)))) }
    ensures few { IfOk result (λ n. n ≤ 1089) }
    ensures storage { let raised = numbers.old.storage + count_by accessor (seen_hand (rows_of hand.now)) in
        numbers.new.storage ≡ (if is_ok result then raised else numbers.old.storage) }
    ensures fits { OnOk result (numbers.old.storage + count_by accessor (seen_hand (rows_of hand.now)) ≤ 65535) }
    ensures drawn { Supplied S.free S.steps result marks.new source.old source.new }
{
    check_constructors(hand.as_slice(), derived)?;
    let before = numbers.last();
    let mut guard = Restore {
        numbers,
        before,
        accepted: false,
    };
    number_accessors(hand.as_slice(), guard.numbers)?;
    let total = count_draws(hand, derived);
    draw_into(source, &mut marks[0..total])?;
    guard.accepted = true;
    Ok(total)
}
