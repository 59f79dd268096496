//! What walk 1 takes out of a member.
ghost use Rattle.std.specs.Prelude.{◌≡◌, ◌+◌, ◌<◌, ◌≤◌, cond, [], ◌∷◌, ◌++◌, length, filter};
ghost use Rattle.lists.specs.Listed.{listed};
ghost use Rattle.rules.specs.declared.describing.Decoration.TheVariants.{Written, Assigned};
ghost use Rattle.rules.specs.declared.naming.Stem.TheVariants.{Dec};
ghost use Rattle.rules.specs.Members.{taken_out};
ghost use Rattle.rules.specs.Draws.{named, if_so, first_stems};
ghost use Rattle.rules.specs.Walks.{applied, merged, some_if, decorations, decorator_assignments, member_assignments, first_item, item_of};
ghost use Rattle.lowering.specs.Hands.{seen_held};
ghost use Rattle.lowering.specs.Left.{after};
ghost use Rattle.lowering.specs.Rows.{rows_of};

use crate::members::{is_replaced, is_taken, is_taken_out};
use crate::names::Names;
use crate::tables::Table;
use formats::Place;
use lists::Bounded;
use pieces::fields::MOST_DECORATORS;
use pieces::parts::Decorator;
use rules::{Assignment, Decoration, Decorators, Held, Made, MadeForm, Name, Stem};

/// A member is assigned at most 9 texts: those of 8 decorators and of its key.
pub(crate) const MOST_ASSIGNMENTS: usize = 576;

/// One decorator stands bare; two or more become an array in written order.
pub(crate) fn merge_decorators(
    decorations: &Bounded<Decoration, MOST_DECORATORS>,
) -> Option<Decorators>
    ensures { applied result ≡ merged (listed decorations.now) }
{
    match decorations.as_slice() {
        [one] => Some(Decorators::Bare(*one)),
        [first, rest @ ..] => Some(Decorators::Array {
            first: *first,
            rest: Bounded::of(*first, rest),
        }),
        [] => None,
    }
}

// `names` and `assignments` stay two parameters: with a struct of two `&mut` each function would also promise that they are the same.
/// Takes out a text that is evaluated ahead of the class, if it is one: it is assigned to the next name.
fn take_out(
    wanted: bool,
    stem: Stem,
    text: Place,
    names: &mut Names<'_>,
    assignments: &mut Table<Assignment, MOST_ASSIGNMENTS>,
) -> Option<Name>
    requires { length (rows_of assignments.old) < 576 }
    ensures name { result ≡ some_if wanted (named stem names.old 0) }
    ensures rows { rows_of assignments.new ≡ rows_of assignments.old
        ++ if_so wanted (record { name = named stem names.old 0; text = text } ∷ []) }
    ensures left { names.new ≡ after (if_so wanted (stem ∷ [])) names.old }
{
    let taken = names.next_if(wanted, stem);
    if let Some(name) = taken {
        assignments.push(Assignment { name, text });
    }
    taken
}

/// The decorator as the descriptor has it; one that is taken out is assigned.
fn take_decorator(
    walked: bool,
    decorator: Decorator,
    names: &mut Names<'_>,
    assignments: &mut Table<Assignment, MOST_ASSIGNMENTS>,
) -> Decoration
    requires { length (rows_of assignments.old) < 576 }
    ensures is { result ≡ cond (taken_out walked decorator) (Assigned (named Dec names.old 0)) (Written decorator.text) }
    ensures rows { rows_of assignments.new ≡ rows_of assignments.old
        ++ if_so (taken_out walked decorator) (record { name = named Dec names.old 0; text = decorator.text } ∷ []) }
    ensures left { names.new ≡ after (if_so (taken_out walked decorator) (Dec ∷ [])) names.old }
{
    let wanted = is_taken_out(walked, decorator);
    let text = decorator.text;
    match take_out(wanted, Stem::Dec, text, names, assignments) {
        Some(name) => Decoration::Assigned(name),
        None => Decoration::Written(text),
    }
}

/// The decorators as the descriptor has them, in written order.
fn take_decorators(
    walked: bool,
    decorators: &Bounded<Decorator, MOST_DECORATORS>,
    names: &mut Names<'_>,
    assignments: &mut Table<Assignment, MOST_ASSIGNMENTS>,
) -> Bounded<Decoration, MOST_DECORATORS>
    requires { length (rows_of assignments.old) + 8 ≤ 576 }
    ensures list { listed result ≡ decorations walked (listed decorators.now) names.old 0 }
    ensures rows { rows_of assignments.new
        ≡ rows_of assignments.old ++ decorator_assignments walked (listed decorators.now) names.old 0 }
    ensures left { names.new ≡ after (filter (taken_out walked) (listed decorators.now)) names.old }
{
    let mut list = Bounded::new(Decoration::Written(Place::default()));
    for decorator in decorators.as_slice() {
        list.append(take_decorator(walked, *decorator, names, assignments));
    }
    list
}

/// Walk 1 over one member in hand, which is written whole, with the computed identifier as its key if the key was taken out.
pub(crate) fn take_first(
    slot: &mut Held,
    names: &mut Names<'_>,
    assignments: &mut Table<Assignment, MOST_ASSIGNMENTS>,
) -> Made
    requires { length (rows_of assignments.old) + 9 ≤ 576 }
    ensures item { item_of result ≡ first_item names.old 0 (seen_held slot.old) }
    ensures held { slot.new ≡ result.held }
    ensures member { slot.new.member ≡ slot.old.member }
    ensures rows { rows_of assignments.new ≡ rows_of assignments.old ++ member_assignments names.old 0 (seen_held slot.old) }
    ensures left { names.new ≡ after (first_stems (seen_held slot.old)) names.old }
{
    let member = slot.member;
    let parts = member.parts();
    let walked = is_taken(parts);
    let decorations = take_decorators(walked, &parts.decorators, names, assignments);
    let replaced = is_replaced(parts);
    let text = parts.key.text;
    let key = take_out(replaced, Stem::ComputedKey, text, names, assignments);
    *slot = Held { member, key };
    Made {
        held: *slot,
        decorators: merge_decorators(&decorations),
        form: MadeForm::AsWritten,
        starter: None,
    }
}
