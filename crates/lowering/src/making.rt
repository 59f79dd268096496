//! What a member is made into, with the names that are left.
//!
//! The parts of the member and the names stay two parameters: a struct of both would be a `&` and a `&mut`, and each function would
//! also have to promise that they are still the same two. What was reached is walk 2's and is copied, and whether the member is
//! private is what its treatment says.
ghost use Rattle.std.specs.Prelude.{◌≡◌, ◌≤◌, [], ◌∷◌, cond};
ghost use Rattle.sheet.specs.Seen.{seen_parts};
ghost use Rattle.rules.specs.Members.{treatment, replaced};
ghost use Rattle.rules.specs.Draws.{named, starter_stem, if_so, starters_after, access_stems, second_stems, third_stems};
ghost use Rattle.rules.specs.Walks.{some_if, storage_of, initializer, access, second_item, third_form, third_item, item_of, number_after};
ghost use Rattle.rules.specs.declared.naming.Stem.TheVariants.{Init};
ghost use Rattle.rules.specs.declared.treating.Treatment.TheVariants.{DecoratedAccessor, DecoratedElement};
ghost use Rattle.lowering.specs.Left.{after};
ghost use Rattle.lowering.specs.Seconds.{is_drawn, second_as, stems_as};

use crate::draws::{is_due, starters_after};
use crate::members::{is_accessor, is_replaced, text_of, treatment_of};
use crate::names::Names;
use rules::{
    Access, Initializer, Made, MadeForm, Name, Starters, Stem, Storage, StorageStem, Treatment,
};
use sheet::Parts;

fn storage_of(parts: &Parts, number: u16) -> Storage
    ensures { result ≡ storage_of number (seen_parts parts.now) }
{
    let key = parts.key.text;
    let stem = if parts.flags.is_private {
        StorageStem::Private(key)
    } else if is_replaced(parts) {
        StorageStem::ComputedKey
    } else {
        StorageStem::Public(key)
    };
    Storage { stem, number }
}

/// The stem of an initializer's name: this one if the key is replaced, and else the one with the key's text.
fn init_stem(parts: &Parts, of_replaced: Stem) -> Stem
    ensures { result ≡ cond (replaced (seen_parts parts.now)) of_replaced (Init (seen_parts parts.now).key.text) }
{
    if is_replaced(parts) {
        of_replaced
    } else {
        Stem::Init(parts.key.text)
    }
}

/// The call of the initializer of this name: with the member's value, if it has one.
fn initializer_of(parts: &Parts, name: Name) -> Initializer
    ensures { result ≡ initializer name (seen_parts parts.now) }
{
    Initializer {
        name,
        value: text_of(parts.body),
    }
}

/// What a private accessor's getter and setter use. Its names are drawn in this order.
fn access_of(private: bool, parts: &Parts, names: &mut Names<'_>) -> Option<Access>
    ensures is { result ≡ access private (seen_parts parts.now) names.old 0 }
    ensures left { names.new ≡ after (access_stems private (seen_parts parts.now)) names.old }
{
    // not `private.then(..)`, for the reason that stands in `Names::next_if`
    if !private {
        return None;
    }
    let key = parts.key.text;
    Some(Access {
        getting: names.next(Stem::Get(key)),
        setting: names.next(Stem::Set(key)),
        parameter: names.next(Stem::V),
    })
}

/// The starter of a half, if the member belongs to that half and the starter is due.
fn next_starter(
    half: bool,
    parts: &Parts,
    starters: Starters,
    names: &mut Names<'_>,
) -> Option<Name>
    ensures is { result ≡ some_if (is_drawn half starters (seen_parts parts.now)) (named (starter_stem half) names.old 0) }
    ensures left { names.new ≡ after (if_so (is_drawn half starters (seen_parts parts.now)) (starter_stem half ∷ [])) names.old }
{
    let stem = if half {
        Stem::StaticStarter
    } else {
        Stem::InstanceStarter
    };
    let is_drawn = half == parts.flags.is_static && is_due(starters, parts);
    names.next_if(is_drawn, stem)
}

/// How far walk 2 has come: what is known of the starters, and the last storage number that was given.
#[derive(Clone, Copy)]
pub(crate) struct Reached {
    pub(crate) starters: Starters,
    pub(crate) number: u16,
}

/// What walk 2 gives to a member: its form, and the starter if that is drawn with it.
#[derive(Clone, Copy)]
pub(crate) struct Second {
    pub(crate) form: MadeForm,
    pub(crate) starter: Option<Name>,
}

/// What walk 2 gives to a decorated accessor. The starter is drawn before the setter's parameter in the instance half, and after
/// all else in the static one.
fn second_of_accessor(
    private: bool,
    parts: &Parts,
    reached: Reached,
    names: &mut Names<'_>,
) -> Second
    ensures is { result ≡ second_as (DecoratedAccessor private) reached names.old (seen_parts parts.now) }
    ensures left { names.new ≡ after (stems_as (DecoratedAccessor private) reached.starters (seen_parts parts.now)) names.old }
{
    let initializer = initializer_of(parts, names.next(init_stem(parts, Stem::InitAccessorKey)));
    let instance_starter = next_starter(false, parts, reached.starters, names);
    let parameter = names.next(Stem::V);
    let access = access_of(private, parts, names);
    let static_starter = next_starter(true, parts, reached.starters, names);
    Second {
        form: MadeForm::StoredDecorated {
            storage: storage_of(parts, reached.number),
            initializer,
            starts: !parts.flags.is_static && !reached.starters.called,
            parameter,
            access,
        },
        starter: instance_starter.or(static_starter),
    }
}

/// What walk 2 gives to a decorated method, getter or setter.
fn second_of_element(
    private: bool,
    parts: &Parts,
    reached: Reached,
    names: &mut Names<'_>,
) -> Second
    ensures is { result ≡ second_as (DecoratedElement private) reached names.old (seen_parts parts.now) }
    ensures left { names.new ≡ after (stems_as (DecoratedElement private) reached.starters (seen_parts parts.now)) names.old }
{
    let form = if private {
        let name = names.next(Stem::Call(parts.key.text));
        MadeForm::Called { name }
    } else {
        MadeForm::AsWritten
    };
    let starter = next_starter(parts.flags.is_static, parts, reached.starters, names);
    Second { form, starter }
}

/// What walk 2 gives to a member, where an accessor's storage has the number that was reached.
fn second_of(parts: &Parts, reached: Reached, names: &mut Names<'_>) -> Second
    ensures is { result ≡ second_as (treatment (seen_parts parts.now)) reached names.old (seen_parts parts.now) }
    ensures left { names.new ≡ after (second_stems reached.starters (seen_parts parts.now)) names.old }
{
    match treatment_of(parts) {
        Treatment::Untouched | Treatment::DecoratedField { .. } => Second {
            form: MadeForm::AsWritten,
            starter: None,
        },
        Treatment::Stored => Second {
            form: MadeForm::Stored {
                storage: storage_of(parts, reached.number),
                value: text_of(parts.body),
                parameter: names.next(Stem::V),
            },
            starter: None,
        },
        Treatment::DecoratedAccessor { private } => {
            second_of_accessor(private, parts, reached, names)
        }
        Treatment::DecoratedElement { private } => {
            second_of_element(private, parts, reached, names)
        }
    }
}

fn number_after(number: u16, parts: &Parts) -> u16
    requires { number_after (seen_parts parts.now) number ≤ 65535 }
    ensures { result ≡ number_after (seen_parts parts.now) number }
{
    if is_accessor(parts) {
        number + 1
    } else {
        number
    }
}

/// Walk 2 over one member.
pub(crate) fn make_second(made: &mut Made, reached: &mut Reached, names: &mut Names<'_>)
    requires { number_after (item_of made.old).member reached.old.number ≤ 65535 }
    ensures item { item_of made.new ≡ second_item reached.old.starters reached.old.number names.old 0 (item_of made.old) }
    ensures held { made.new.held ≡ made.old.held }
    ensures starters { reached.new.starters ≡ starters_after reached.old.starters (item_of made.old).member }
    ensures number { reached.new.number ≡ number_after (item_of made.old).member reached.old.number }
    ensures left { names.new ≡ after (second_stems reached.old.starters (item_of made.old).member) names.old }
{
    let parts = made.held.member.parts();
    reached.number = number_after(reached.number, parts);
    let second = second_of(parts, *reached, names);
    reached.starters = starters_after(reached.starters, parts);
    made.form = second.form;
    made.starter = second.starter;
}

/// The form that walk 3 gives to a field; another member keeps the one that it has.
fn third_form(parts: &Parts, form: MadeForm, names: &mut Names<'_>) -> MadeForm
    ensures is { result ≡ third_form (treatment (seen_parts parts.now)) names.old 0 (seen_parts parts.now) form }
    ensures left { names.new ≡ after (third_stems (seen_parts parts.now)) names.old }
{
    let Treatment::DecoratedField { private } = treatment_of(parts) else {
        return form;
    };
    MadeForm::Initialized {
        initializer: initializer_of(parts, names.next(init_stem(parts, Stem::InitFieldKey))),
        parameter: names.next_if(private, Stem::Value),
    }
}

/// Walk 3 over one member.
pub(crate) fn make_third(made: &mut Made, names: &mut Names<'_>)
    ensures item { item_of made.new ≡ third_item names.old 0 (item_of made.old) }
    ensures held { made.new.held ≡ made.old.held }
    ensures left { names.new ≡ after (third_stems (item_of made.old).member) names.old }
{
    made.form = third_form(made.held.member.parts(), made.form, names);
}
