//! What a member is made into.
use crate::describing::Decorators;
use crate::naming::Name;
use formats::Place;
use sheet::Member;

/// A member in hand.
#[derive(Clone, Copy)]
pub struct Held {
    pub member: Member,
    /// The computed identifier that replaces the member's key; without one the key is as the member has it.
    pub key: Option<Name>,
}

/// The call of an initializer: with `this`, and with the value where there is one.
#[derive(Clone, Copy)]
pub struct Initializer {
    pub name: Name,
    pub value: Option<Place>,
}

/// What a storage's name begins with. Below, `k` is the text of the accessor's key.
#[derive(Clone, Copy)]
pub enum StorageStem {
    /// `#__k`
    Private(Place),
    /// `#___private_k`
    Public(Place),
    /// `#___private_computedKey`: the key was taken out.
    ComputedKey,
}

/// The private field that holds an accessor's value: its name is the stem, an underline and the number.
#[derive(Clone, Copy)]
pub struct Storage {
    pub stem: StorageStem,
    pub number: u16,
}

/// What the made getter and setter of a decorated private accessor use, and the parameter of that setter.
#[derive(Clone, Copy)]
pub struct Access {
    pub getting: Name,
    pub setting: Name,
    pub parameter: Name,
}

/// What a member becomes.
#[derive(Clone, Copy)]
pub enum MadeForm {
    /// Itself, with the key that it has in hand.
    AsWritten,
    /// A field whose value is an initializer's call. The setter in a private one's descriptor has this parameter.
    Initialized {
        initializer: Initializer,
        parameter: Option<Name>,
    },
    /// Storage with the value, a getter and a setter of it; the setter has this parameter.
    Stored {
        storage: Storage,
        value: Option<Place>,
        parameter: Name,
    },
    /// Storage whose value is an initializer's call, after the instance starter's if `starts`. The parameter is that of the
    /// setter of the storage: of a public accessor the made one, of a private one the descriptor's.
    StoredDecorated {
        storage: Storage,
        initializer: Initializer,
        starts: bool,
        parameter: Name,
        access: Option<Access>,
    },
    /// A getter or setter whose body uses this name.
    Called {
        name: Name,
    },
}

/// A member with what is made of it.
#[derive(Clone, Copy)]
pub struct Made {
    /// As it is in hand after walk 1.
    pub held: Held,
    pub decorators: Option<Decorators>,
    pub form: MadeForm,
    /// The starter of its half, if it was drawn with this member.
    pub starter: Option<Name>,
}

/// The constructor.
#[derive(Clone, Copy)]
pub enum Constructor {
    /// Nothing is added, and none is made.
    AsWritten,
    /// The member of this number has the instance starter's call.
    Old { member: usize },
    /// A new one with the call stands ahead of the member of this number, or behind all members where there is none of this number;
    /// in a derived class with these arguments.
    New { before: usize, args: Option<Name> },
}

/// What stands around the members.
#[derive(Clone, Copy)]
pub struct Frame {
    /// The instance starter, which a storage's value or the constructor calls.
    pub instance_starter: Option<Name>,
    /// The static starter, which the static block calls.
    pub static_starter: Option<Name>,
    /// Whether there is a static block.
    pub block: bool,
    pub constructor: Constructor,
}
