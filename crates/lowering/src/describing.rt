//! The descriptors, in the order in which the helper gets them.
ghost use Rattle.std.specs.Prelude.{◌≡◌, ◌+◌, ◌≤◌, ◌++◌, map, length, filter};
ghost use Rattle.sheet.specs.Seen.{seen_parts};
ghost use Rattle.rules.specs.Records.{descriptor_key, more_for, more_of, describe, described_of, in_order};
ghost use Rattle.rules.specs.Walks.{item_of};
ghost use Rattle.lowering.specs.Groups.{grouped};
ghost use Rattle.lowering.specs.Rows.{rows_of};

use crate::groups::{GROUPS, Group};
use crate::members::text_of;
use crate::tables::Table;
use pieces::codes::KeyKind;
use rules::{Code, Descriptor, DescriptorKey, Extra, Function, Made, MadeForm, Name, PrivateField};
use sheet::{MOST_MEMBERS, Parts};

fn key_of(key: Option<Name>, parts: &Parts) -> DescriptorKey
    ensures { result ≡ descriptor_key key (seen_parts parts.now) }
{
    match key {
        Some(name) => DescriptorKey::Assigned(name),
        None => match parts.key.kind {
            KeyKind::Identifier => DescriptorKey::Quoted(parts.key.text),
            _ => DescriptorKey::Written(parts.key.text),
        },
    }
}

/// What follows the key in the descriptor of a private member.
fn extra_of(form: MadeForm, parts: &Parts) -> Option<Extra>
    ensures { more_of result ≡ more_for form (seen_parts parts.now) }
{
    match form {
        MadeForm::Initialized {
            parameter: Some(parameter),
            ..
        } => Some(Extra::Access {
            field: PrivateField::Written(parts.key.text),
            parameter,
        }),
        MadeForm::StoredDecorated {
            storage,
            parameter,
            access: Some(_),
            ..
        } => Some(Extra::Access {
            field: PrivateField::Stored(storage),
            parameter,
        }),
        MadeForm::Called { .. } => Some(Extra::Function(Function {
            is_async: parts.flags.is_async,
            is_generator: parts.flags.is_generator,
            parameters: parts.parameters,
            body: text_of(parts.body),
        })),
        _ => None,
    }
}

/// What the helper is told of the member.
fn describe_one(made: &Made) -> Descriptor
    ensures { described_of result ≡ describe (item_of made.now) }
{
    let parts = made.held.member.parts();
    Descriptor {
        decorators: made.decorators,
        code: Code {
            kind: parts.kind,
            is_static: parts.flags.is_static,
        },
        key: key_of(made.held.key, parts),
        extra: extra_of(made.form, parts),
    }
}

/// Appends the descriptors of one group, in written order.
fn describe_group(
    members: &Table<Made, MOST_MEMBERS>,
    group: Group,
    descriptors: &mut Table<Descriptor, MOST_MEMBERS>,
)
    requires { length (rows_of descriptors.old) + length (filter (grouped group) (map item_of (rows_of members.now))) ≤ 64 }
    ensures { map described_of (rows_of descriptors.new)
        ≡ map described_of (rows_of descriptors.old) ++ map describe (filter (grouped group) (map item_of (rows_of members.now))) }
{
    for made in members.as_slice() {
        if group.has(made) {
            descriptors.push(describe_one(made));
        }
    }
}

/// Fills the table with the descriptors of the members.
pub(crate) fn describe_all(
    members: &Table<Made, MOST_MEMBERS>,
    descriptors: &mut Table<Descriptor, MOST_MEMBERS>,
)
    ensures { map described_of (rows_of descriptors.new) ≡ map describe (in_order (λ i. i.member) (map item_of (rows_of members.now))) }
{
    descriptors.clear();
    for group in GROUPS {
        describe_group(members, group, descriptors);
    }
}
