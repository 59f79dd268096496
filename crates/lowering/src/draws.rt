//! How many names a class draws.
//!
//! The starters and a member's parts stay two parameters: they are what was seen before and what is looked at, and types of two other
//! crates.
ghost use Rattle.std.specs.Prelude.{◌≡◌, ◌+◌, ◌≤◌, not, ◌&&◌, length};
ghost use Rattle.sheet.specs.Seen.{seen_parts};
ghost use Rattle.rules.specs.Draws.{due, starters_after, expressions, first_stems, second_stems, third_stems, draws};
ghost use Rattle.lowering.specs.Hands.{seen_hand};
ghost use Rattle.lowering.specs.Rows.{rows_of};
ghost use Rattle.lowering.specs.Tallies.{tally_after, total_of};

use crate::members::{is_built, is_replaced, is_taken, is_taken_out, treatment_of};
use crate::tables::Table;
use rules::{Held, Starters, Treatment};
use sheet::{MOST_MEMBERS, Parts};

/// A class draws at most 17 names for each of its members, and one for a new constructor.
pub(crate) const MOST_MARKS: usize = 1089;

/// What was counted of the members so far: the names, the starters, and whether there is a constructor with a body.
#[derive(Clone, Copy)]
pub(crate) struct Tally {
    pub(crate) names: usize,
    pub(crate) starters: Starters,
    pub(crate) built: bool,
}

/// How many of the member's decorators are taken out.
fn count_expressions(parts: &Parts) -> usize
    ensures is { result ≡ expressions (seen_parts parts.now) }
    ensures few { result ≤ 8 }
{
    let walked = is_taken(parts);
    let decorators = parts.decorators.as_slice();
    decorators
        .iter()
        .filter(|decorator| is_taken_out(walked, **decorator))
        .count()
}

/// How many names the member draws in walk 1.
fn first_count(parts: &Parts) -> usize
    ensures is { result ≡ length (first_stems (seen_parts parts.now)) }
    ensures few { result ≤ 9 }
{
    count_expressions(parts) + usize::from(is_replaced(parts))
}

/// Whether the starter of the member's half is not drawn yet.
pub(crate) fn is_due(starters: Starters, parts: &Parts) -> bool
    ensures { result ≡ due starters (seen_parts parts.now) }
{
    if parts.flags.is_static {
        !starters.statics
    } else {
        !starters.instance
    }
}

/// How many names the member draws in walk 2.
fn second_count(starters: Starters, parts: &Parts) -> usize
    ensures is { result ≡ length (second_stems starters (seen_parts parts.now)) }
    ensures few { result ≤ 6 }
{
    let starter = usize::from(is_due(starters, parts));
    match treatment_of(parts) {
        Treatment::Untouched | Treatment::DecoratedField { .. } => 0,
        Treatment::Stored => 1,
        Treatment::DecoratedAccessor { private: true } => 5 + starter,
        Treatment::DecoratedAccessor { private: false } => 2 + starter,
        Treatment::DecoratedElement { private } => usize::from(private) + starter,
    }
}

/// How many names the member draws in walk 3.
fn third_count(parts: &Parts) -> usize
    ensures is { result ≡ length (third_stems (seen_parts parts.now)) }
    ensures few { result ≤ 2 }
{
    match treatment_of(parts) {
        Treatment::DecoratedField { private } => 1 + usize::from(private),
        _ => 0,
    }
}

/// What is known of the starters after the member.
pub(crate) fn starters_after(starters: Starters, parts: &Parts) -> Starters
    ensures { result ≡ starters_after starters (seen_parts parts.now) }
{
    let is_static = parts.flags.is_static;
    let (starts, calls) = match treatment_of(parts) {
        Treatment::Untouched | Treatment::Stored | Treatment::DecoratedField { .. } => {
            (false, false)
        }
        Treatment::DecoratedAccessor { .. } => (true, !is_static),
        Treatment::DecoratedElement { .. } => (true, false),
    };
    Starters {
        instance: starters.instance || starts && !is_static,
        statics: starters.statics || starts && is_static,
        called: starters.called || calls,
    }
}

pub(crate) const NO_STARTERS: Starters = Starters {
    instance: false,
    statics: false,
    called: false,
};

/// Whether the constructor has to call the instance starter: it was drawn, and no storage's value calls it.
pub(crate) fn is_call_left(starters: Starters) -> bool
    ensures { result ≡ starters.instance && not starters.called }
{
    starters.instance && !starters.called
}

/// One member more.
fn tally_after(tally: Tally, parts: &Parts) -> Tally
    requires { tally.names ≤ 1088 }
    ensures is { result ≡ tally_after tally (seen_parts parts.now) }
    ensures few { result.names ≤ tally.names + 17 }
{
    let first = first_count(parts);
    let second = second_count(tally.starters, parts);
    let third = third_count(parts);
    Tally {
        names: tally.names + first + second + third,
        starters: starters_after(tally.starters, parts),
        built: tally.built || is_built(parts),
    }
}

/// How many names a class draws of which all members were counted: a new constructor's arguments have one too.
fn total_of(tally: Tally, derived: bool) -> usize
    requires { tally.names ≤ 1088 }
    ensures { result ≡ total_of tally derived }
{
    tally.names + usize::from(is_call_left(tally.starters) && !tally.built && derived)
}

/// How many names the class draws.
pub(crate) fn count_draws(hand: &Table<Held, MOST_MEMBERS>, derived: bool) -> usize
    ensures is { result ≡ length (draws derived (seen_hand (rows_of hand.now))) }
    ensures few { result ≤ 1089 }
{
    let mut tally = Tally {
        names: 0,
        starters: NO_STARTERS,
        built: false,
    };
    let members = hand.as_slice();
    for held in members {
        tally = tally_after(tally, held.member.parts());
    }
    total_of(tally, derived)
}
