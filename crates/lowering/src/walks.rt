//! The walks over the members.
//!
//! Each walk is lent the tables that it writes and the names: of the record's tables the others go on reading some, and a struct of
//! several `&mut` would have to promise that they are still the same ones.
ghost use Rattle.std.specs.Prelude.{◌≡◌, ◌+◌, ◌≤◌, [], map, count_by};
ghost use Rattle.rules.specs.Members.{accessor};
ghost use Rattle.rules.specs.Draws.{no_starters, first_stems, third_stems, for_each, for_second_walk, constructor_calls};
ghost use Rattle.rules.specs.Walks.{first_walk, assignments_from, second_walk, third_walk, item_of};
ghost use Rattle.lowering.specs.Hands.{seen_hand};
ghost use Rattle.lowering.specs.Items.{members_of};
ghost use Rattle.lowering.specs.Left.{after};
ghost use Rattle.lowering.specs.Rows.{rows_of};

use crate::draws::{NO_STARTERS, is_call_left};
use crate::making::{Reached, make_second, make_third};
use crate::names::Names;
use crate::tables::Table;
use crate::taking::{MOST_ASSIGNMENTS, take_first};
use rules::{Assignment, Held, Made};
use sheet::MOST_MEMBERS;

/// Walk 1: what is evaluated ahead of the class is taken out of the members in hand, and a row is made for each of them.
pub(crate) fn walk_first(
    hand: &mut Table<Held, MOST_MEMBERS>,
    names: &mut Names<'_>,
    assignments: &mut Table<Assignment, MOST_ASSIGNMENTS>,
    members: &mut Table<Made, MOST_MEMBERS>,
)
    ensures items { map item_of (rows_of members.new) ≡ first_walk names.old 0 (seen_hand (rows_of hand.old)) }
    ensures rows { rows_of assignments.new ≡ assignments_from names.old 0 (seen_hand (rows_of hand.old)) }
    ensures left { names.new ≡ after (for_each first_stems 0 (seen_hand (rows_of hand.old))) names.old }
{
    assignments.clear();
    members.clear();
    for slot in hand.rows.iter_mut() {
        members.push(take_first(slot, names, assignments));
    }
}

/// Walk 2: accessors, methods, getters and setters. `number` is the storage number before. Answers whether the instance starter's
/// call is left to the constructor.
pub(crate) fn walk_second(
    members: &mut Table<Made, MOST_MEMBERS>,
    number: u16,
    names: &mut Names<'_>,
) -> bool
    requires { number + count_by accessor (members_of (map item_of (rows_of members.old))) ≤ 65535 }
    ensures items { map item_of (rows_of members.new) ≡ second_walk no_starters number names.old 0 (map item_of (rows_of members.old)) }
    ensures calls { result ≡ constructor_calls (members_of (map item_of (rows_of members.old))) }
    ensures left { names.new ≡ after (for_second_walk no_starters 0 (members_of (map item_of (rows_of members.old)))) names.old }
{
    let mut reached = Reached {
        starters: NO_STARTERS,
        number,
    };
    for made in members.rows.iter_mut() {
        make_second(made, &mut reached, names);
    }
    is_call_left(reached.starters)
}

/// Walk 3: fields.
pub(crate) fn walk_third(members: &mut Table<Made, MOST_MEMBERS>, names: &mut Names<'_>)
    ensures items { map item_of (rows_of members.new) ≡ third_walk names.old 0 (map item_of (rows_of members.old)) }
    ensures left { names.new ≡ after (for_each third_stems 0 (members_of (map item_of (rows_of members.old)))) names.old }
{
    for made in members.rows.iter_mut() {
        make_third(made, names);
    }
}
