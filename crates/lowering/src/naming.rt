//! The names in the order of the results, and the variables.
ghost use Rattle.std.specs.Prelude.{◌≡◌, ◌+◌, ◌≤◌, ◌++◌, map, length, filter};
ghost use Rattle.std.specs.List.{flat_map};
ghost use Rattle.std.specs.Option.{option_to_list};
ghost use Rattle.rules.specs.Records.{second_names, third_names, item_names, in_order, starter_of};
ghost use Rattle.rules.specs.Walks.{item_of};
ghost use Rattle.lowering.specs.Picks.{wanted};
ghost use Rattle.lowering.specs.Rows.{rows_of};

use crate::groups::{GROUPS, Group};
use crate::tables::Table;
use crate::taking::MOST_ASSIGNMENTS;
use rules::{Assignment, Frame, Made, MadeForm, Name};
use sheet::MOST_MEMBERS;

/// Of each member at most three names stand for results, and there are two starters.
pub(crate) const MOST_NAMES: usize = 194;

/// The names of assignments, and those of results.
pub(crate) const MOST_VARIABLES: usize = 770;

/// Which members' names are wanted. It is an enum, since the cases are few and closed. A trait with a method for each case, which
/// puts the names into a table, cannot be written: Rattle states no trait method that has a const parameter, which the table's size
/// is. And of a closure each call's contract would have to say which test it computes.
#[derive(Clone, Copy)]
pub(crate) enum Pick {
    /// Those of a group.
    Group(Group),
    /// Those whose names walk 2 drew.
    Second,
    /// Those whose names walk 3 drew.
    Third,
}

impl Pick {
    fn wants(self, made: &Made) -> bool
        ensures { result ≡ wanted self (item_of made.now) }
    {
        let is_third = matches!(made.form, MadeForm::Initialized { .. });
        match self {
            Pick::Group(group) => group.has(made),
            Pick::Second => !is_third,
            Pick::Third => is_third,
        }
    }
}

/// The names that a form uses for results: in a value, in a getter and a setter, in a made body.
fn names_of(form: MadeForm) -> [Option<Name>; 3]
    ensures { flat_map option_to_list result ≡ second_names form ++ third_names form }
{
    match form {
        MadeForm::AsWritten | MadeForm::Stored { .. } => [None; 3],
        MadeForm::Initialized { initializer, .. } => [Some(initializer.name), None, None],
        MadeForm::StoredDecorated {
            initializer,
            access,
            ..
        } => [
            Some(initializer.name),
            access.map(|access| access.getting),
            access.map(|access| access.setting),
        ],
        MadeForm::Called { name } => [Some(name), None, None],
    }
}

/// Appends the names of all members that are wanted, in written order.
fn put_all<const N: usize>(
    pick: Pick,
    members: &Table<Made, MOST_MEMBERS>,
    names: &mut Table<Name, N>,
)
    requires { length (rows_of names.old) + length (flat_map item_names (filter (wanted pick) (map item_of (rows_of members.now)))) ≤ N }
    ensures { rows_of names.new ≡ rows_of names.old ++ flat_map item_names (filter (wanted pick) (map item_of (rows_of members.now))) }
{
    for made in members.as_slice() {
        if pick.wants(made) {
            names.push_present(&names_of(made.form));
        }
    }
}

/// Appends the names that texts are assigned to.
fn put_assigned<const N: usize>(assignments: &[Assignment], names: &mut Table<Name, N>)
    requires { length (rows_of names.old) + length assignments.now ≤ N }
    ensures { rows_of names.new ≡ rows_of names.old ++ map (λ a. a.name) assignments.now }
{
    for assignment in assignments {
        names.push(assignment.name);
    }
}

/// Fills the table with the names of all descriptors' results, in the order of the descriptors, and the starters.
pub(crate) fn name_all(
    members: &Table<Made, MOST_MEMBERS>,
    frame: Frame,
    names: &mut Table<Name, MOST_NAMES>,
)
    ensures { rows_of names.new
        ≡ flat_map item_names (in_order (λ i. i.member) (map item_of (rows_of members.now)))
        ++ (option_to_list frame.instance_starter ++ option_to_list frame.static_starter) }
{
    names.clear();
    for group in GROUPS {
        put_all(Pick::Group(group), members, names);
    }
    names.push_present(&[frame.instance_starter, frame.static_starter]);
}

/// Fills the table with the variables: the names that are no parameters, as they were drawn, and the starters.
pub(crate) fn declare_all(
    assignments: &Table<Assignment, MOST_ASSIGNMENTS>,
    members: &Table<Made, MOST_MEMBERS>,
    frame: Frame,
    variables: &mut Table<Name, MOST_VARIABLES>,
)
    ensures { rows_of variables.new
        ≡ map (λ a. a.name) (rows_of assignments.now)
        ++ (flat_map (λ i. second_names i.form) (map item_of (rows_of members.now))
        ++ (flat_map (λ i. third_names i.form) (map item_of (rows_of members.now))
        ++ (option_to_list frame.instance_starter ++ option_to_list frame.static_starter))) }
{
    variables.clear();
    put_assigned(assignments.as_slice(), variables);
    put_all(Pick::Second, members, variables);
    put_all(Pick::Third, members, variables);
    variables.push_present(&[frame.instance_starter, frame.static_starter]);
}

/// The starter of a half: it is drawn with the first decorated non-field of that half.
pub(crate) fn starter_of(is_static: bool, members: &Table<Made, MOST_MEMBERS>) -> Option<Name>
    ensures { result ≡ starter_of is_static (map item_of (rows_of members.now)) }
{
    let starting = Group {
        is_static,
        non_field: true,
    };
    let first = members.as_slice().iter().find(|made| starting.has(made))?;
    first.starter
}
