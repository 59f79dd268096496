//! The groups of members, by which descriptors and names are put in order.
ghost use Rattle.std.specs.Prelude.{◌≡◌};
ghost use Rattle.rules.specs.Walks.{item_of};
ghost use Rattle.lowering.specs.Groups.{grouped};

use crate::members::treatment_of;
use rules::{Made, Treatment};

/// The decorated members of one half: of that its non-fields, or its fields.
#[derive(Clone, Copy)]
pub(crate) struct Group {
    pub(crate) is_static: bool,
    pub(crate) non_field: bool,
}

/// All groups, in the order in which the helper gets their descriptors. It stands here, and nowhere else.
pub(crate) const GROUPS: [Group; 4] = [
    Group {
        is_static: true,
        non_field: true,
    },
    Group {
        is_static: true,
        non_field: false,
    },
    Group {
        is_static: false,
        non_field: true,
    },
    Group {
        is_static: false,
        non_field: false,
    },
];

impl Group {
    /// Whether the member belongs to the group.
    pub(crate) fn has(self, made: &Made) -> bool
        ensures { result ≡ grouped self (item_of made.now) }
    {
        let parts = made.held.member.parts();
        let wanted = match treatment_of(parts) {
            Treatment::Untouched | Treatment::Stored => false,
            Treatment::DecoratedField { .. } => !self.non_field,
            Treatment::DecoratedAccessor { .. } | Treatment::DecoratedElement { .. } =>
                self.non_field,
        };
        wanted && self.is_static == parts.flags.is_static
    }
}
