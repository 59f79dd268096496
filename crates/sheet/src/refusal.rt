//! Why a sheet is refused.
ghost use Rattle.std.specs.Prelude.{◌≡◌};
ghost use Rattle.sheet.specs.declared.refusal.Refusal.TheVariants.{Reading, Members, Memory};
ghost use Rattle.sheet.specs.Refusals.{members_refusal, refusal_of};

use formats::ReadFault;
use refusals::{Layer, Numbered};
use std::alloc::AllocError;

/// A member breaks a rule; it begins at `at`.
#[derive(Clone, Copy)]
pub enum MemberFault {
    /// Any rule but the setter's.
    BrokenRule { at: usize },
    /// The first parameter of a decorated private setter is missing, or no plain identifier.
    SetterParameter { at: usize },
}

impl From<MemberFault> for Numbered {
    ghost from_gives = { λ fault told. told ≡ members_refusal fault };

    fn from(fault: MemberFault) -> Numbered {
        let (number, layer, place) = match fault {
            MemberFault::BrokenRule { at } => (6, Layer::Members, at),
            MemberFault::SetterParameter { at } => (7, Layer::Members, at),
        };
        Numbered {
            number,
            layer,
            place,
        }
    }
}

/// Why there is no class: the sheet is refused, or memory is wanting.
#[derive(Clone, Copy)]
pub enum Refusal {
    Reading(ReadFault),
    Members(MemberFault),
    Memory,
}

// Written out, since clauses name what a `?` makes.

impl From<ReadFault> for Refusal {
    ghost from_gives = { λ fault refusal. refusal ≡ Reading fault };

    fn from(fault: ReadFault) -> Refusal {
        Refusal::Reading(fault)
    }
}

impl From<MemberFault> for Refusal {
    ghost from_gives = { λ fault refusal. refusal ≡ Members fault };

    fn from(fault: MemberFault) -> Refusal {
        Refusal::Members(fault)
    }
}

impl From<AllocError> for Refusal {
    ghost from_gives = { λ _ refusal. refusal ≡ Memory };

    fn from(_error: AllocError) -> Refusal {
        Refusal::Memory
    }
}

impl Refusal {
    /// Number, layer and place; none where memory is wanting.
    pub fn numbered(self) -> Option<Numbered>
        ensures { result ≡ refusal_of self }
    {
        match self {
            Refusal::Reading(fault) => Some(fault.into()),
            Refusal::Members(fault) => Some(fault.into()),
            Refusal::Memory => None,
        }
    }
}
