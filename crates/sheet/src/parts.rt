//! What a member consists of.
use lists::Bounded;
use pieces::codes::{Flags, Kind};
use pieces::fields::{MOST_DECORATORS, MOST_PARAMETERS};
use pieces::parts::{Body, Decorator, Key, Parameter};

/// The parts of a member. Texts are places in the sheet.
#[derive(Clone, Copy)]
pub struct Parts {
    pub kind: Kind,
    pub flags: Flags,
    pub key: Key,
    pub decorators: Bounded<Decorator, MOST_DECORATORS>,
    pub parameters: Bounded<Parameter, MOST_PARAMETERS>,
    pub body: Option<Body>,
}
