//! The fields of a member as they are written, before its rules are looked at.
ghost use Rattle.std.specs.Prelude.{◌≡◌, true};
ghost use Rattle.pieces.specs.Bodies.{body_fits};

use crate::codes::{Flags, Kind};
use crate::parts::{Body, Decorator, Key, Parameter};
use lists::Bounded;

mod reading;

pub use reading::read_fields;

pub const MOST_DECORATORS: usize = 8;

pub const MOST_PARAMETERS: usize = 16;

/// What stands before a member's lists.
#[derive(Clone, Copy)]
pub struct Head {
    pub kind: Kind,
    pub flags: Flags,
    /// Whether the value or body is there. It has its text in the sheet either way, and that a text is empty where this says that
    /// it is not there is a rule of members, which are looked at later: so it is no `Option`.
    pub present: bool,
    pub key: Key,
}

/// A member's fields. Its texts stand there also where the value or body is not.
#[derive(Clone, Copy)]
pub struct Written {
    pub head: Head,
    pub decorators: Bounded<Decorator, MOST_DECORATORS>,
    pub parameters: Bounded<Parameter, MOST_PARAMETERS>,
    pub body: Body,
    ghost fitting: { body_fits head.kind body ≡ true },
}
