//! What the helper is told, and what is assigned ahead of the class.
ghost use Rattle.std.specs.Prelude.{◌≡◌};
ghost use Rattle.rules.specs.Records.{code_number};

use crate::forming::Storage;
use crate::naming::Name;
use formats::Place;
use lists::Bounded;
use pieces::codes::Kind;
use pieces::fields::{MOST_DECORATORS, MOST_PARAMETERS};
use pieces::parts::Parameter;

/// A text that is evaluated ahead of the class, and the name that it is assigned to.
#[derive(Clone, Copy)]
pub struct Assignment {
    pub name: Name,
    pub text: Place,
}

/// A decorator as its descriptor has it: its text, or the name that its text is assigned to.
#[derive(Clone, Copy)]
pub enum Decoration {
    Written(Place),
    Assigned(Name),
}

/// The decorators of a decorated member as its descriptor has them, in written order.
#[derive(Clone, Copy)]
pub enum Decorators {
    /// One stands bare.
    Bare(Decoration),
    /// Two or more stand in an array.
    Array {
        first: Decoration,
        rest: Bounded<Decoration, MOST_DECORATORS>,
    },
}

/// The key of a descriptor.
#[derive(Clone, Copy)]
pub enum DescriptorKey {
    /// An identifier, as a string.
    Quoted(Place),
    /// What stood in brackets, without them.
    Written(Place),
    /// The name that the key was assigned to.
    Assigned(Name),
}

/// The function that a private method, getter or setter was.
#[derive(Clone, Copy)]
pub struct Function {
    pub is_async: bool,
    pub is_generator: bool,
    pub parameters: Bounded<Parameter, MOST_PARAMETERS>,
    pub body: Option<Place>,
}

/// The private field that a descriptor's getter and setter reach.
#[derive(Clone, Copy)]
pub enum PrivateField {
    /// A private field of the class itself, by the text of its key.
    Written(Place),
    /// The storage of a private accessor.
    Stored(Storage),
}

/// What follows the key in the descriptor of a private member.
#[derive(Clone, Copy)]
pub enum Extra {
    Function(Function),
    /// A getter and a setter of a field; the setter has this parameter.
    Access {
        field: PrivateField,
        parameter: Name,
    },
}

/// The code of a decorated member: its kind, and whether it is static.
#[derive(Clone, Copy)]
pub struct Code {
    pub kind: Kind,
    pub is_static: bool,
}

/// The number that the helper is told: that of the kind, and 5 more if static.
impl From<Code> for u8 {
    ghost from_gives = { λ code number. number ≡ code_number code };

    fn from(code: Code) -> u8 {
        let kind = u8::from(code.kind);
        if code.is_static { kind + 5 } else { kind }
    }
}

/// What the helper is told of one decorated member.
#[derive(Clone, Copy)]
pub struct Descriptor {
    pub decorators: Option<Decorators>,
    pub code: Code,
    pub key: DescriptorKey,
    /// Of a private member alone.
    pub extra: Option<Extra>,
}
