//! Why a member is not taken in hand, and why a class is not lowered.
ghost use Rattle.std.specs.Prelude.{◌≡◌};
ghost use Rattle.lowering.specs.declared.faults.LowerFault.TheVariants.{Members, Marks};
ghost use Rattle.lowering.specs.Refusals.{class_refusal, lower_refusal};

use marks::Exhausted;
use refusals::{Layer, Numbered};
use sheet::MOST_MEMBERS;

/// What is wrong with the members in hand. A member goes by its number.
#[derive(Clone, Copy)]
pub enum ClassFault {
    /// This constructor with a body is out of order: another one stands before it, its head is not empty though the class is not
    /// derived, or its head is empty though the class is derived.
    Constructor { member: usize },
    /// There are 64 members in hand already.
    TooMany,
    /// The storage number of this accessor would be over 65,535.
    StorageNumber { member: usize },
}

impl From<ClassFault> for Numbered {
    ghost from_gives = { λ fault told. told ≡ class_refusal fault };

    fn from(fault: ClassFault) -> Numbered {
        let (number, place) = match fault {
            ClassFault::Constructor { member } => (8, member),
            ClassFault::TooMany => (11, MOST_MEMBERS),
            ClassFault::StorageNumber { member } => (13, member),
        };
        Numbered {
            number,
            layer: Layer::Members,
            place,
        }
    }
}

impl ClassFault {
    /// Number, layer and place.
    pub fn numbered(self) -> Numbered
        ensures { result ≡ class_refusal self }
    {
        self.into()
    }
}

/// Why a class is not lowered: by its members, or for want of marks.
#[derive(Clone, Copy)]
pub enum LowerFault {
    Members(ClassFault),
    Marks(Exhausted),
}

// Written out, since clauses name what a `?` makes.

impl From<ClassFault> for LowerFault {
    ghost from_gives = { λ fault lower. lower ≡ Members fault };

    fn from(fault: ClassFault) -> LowerFault {
        LowerFault::Members(fault)
    }
}

impl From<Exhausted> for LowerFault {
    ghost from_gives = { λ fault lower. lower ≡ Marks fault };

    fn from(fault: Exhausted) -> LowerFault {
        LowerFault::Marks(fault)
    }
}

impl From<LowerFault> for Numbered {
    ghost from_gives = { λ fault told. told ≡ lower_refusal fault };

    fn from(fault: LowerFault) -> Numbered {
        match fault {
            LowerFault::Members(fault) => Numbered::from(fault),
            LowerFault::Marks(fault) => Numbered::from(fault),
        }
    }
}

impl LowerFault {
    /// Number, layer and place.
    pub fn numbered(self) -> Numbered
        ensures { result ≡ lower_refusal self }
    {
        Numbered::from(self)
    }
}
