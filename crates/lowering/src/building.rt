//! The constructor.
ghost use Rattle.std.specs.Prelude.{◌≡◌, not, ◌&&◌, cond, [], ◌∷◌, map};
ghost use Rattle.rules.specs.declared.forming.Constructor.TheVariants.{AsWritten};
ghost use Rattle.rules.specs.declared.naming.Stem.TheVariants.{Args};
ghost use Rattle.rules.specs.Members.{any_of, built};
ghost use Rattle.rules.specs.Draws.{named, constructor_calls, draws_args, if_so};
ghost use Rattle.rules.specs.Records.{constructor_from};
ghost use Rattle.rules.specs.Walks.{some_if, item_of};
ghost use Rattle.lowering.specs.Items.{members_of};
ghost use Rattle.lowering.specs.Left.{after};

use crate::members::{is_built, is_constructor};
use crate::names::Names;
use rules::{Constructor, Made, Stem};

/// Where the instance starter's call stands: in the constructor with a body, or else in a new one, in a derived class with
/// arguments.
fn place_call(members: &[Made], derived: bool, names: &mut Names<'_>) -> Constructor
    ensures is { let ms = members_of (map item_of members.now) in
        result ≡ constructor_from 0 ms (some_if derived (named Args names.old 0)) 0 }
    ensures left { let ms = members_of (map item_of members.now) in
        names.new ≡ after (if_so (not (any_of built ms) && derived) (Args ∷ [])) names.old }
{
    // one pass finds the constructor with a body, or else the place behind the last one, which two searches would find in two passes
    let mut before = 0;
    for (member, made) in members.iter().enumerate() {
        let parts = made.held.member.parts();
        if is_built(parts) {
            return Constructor::Old { member };
        }
        if is_constructor(parts) {
            before = member + 1;
        }
    }
    Constructor::New {
        before,
        args: names.next_if(derived, Stem::Args),
    }
}

/// The constructor of the class, with the instance starter's call if that is left to it.
pub(crate) fn construct(
    members: &[Made],
    derived: bool,
    calls: bool,
    names: &mut Names<'_>,
) -> Constructor
    requires { calls ≡ constructor_calls (members_of (map item_of members.now)) }
    ensures is { let ms = members_of (map item_of members.now) in
        result ≡ cond calls (constructor_from 0 ms (some_if derived (named Args names.old 0)) 0) AsWritten }
    ensures left { let ms = members_of (map item_of members.now) in
        names.new ≡ after (if_so (draws_args derived ms) (Args ∷ [])) names.old }
{
    if calls {
        place_call(members, derived, names)
    } else {
        Constructor::AsWritten
    }
}
