//! A class as a sheet describes it.
use crate::member::Member;
use formats::Place;

/// A class: the places of its name and of its superclass, and its members.
#[derive(Drop)]
pub struct Class {
    pub name: Place,
    /// None in a class that is not derived.
    pub superclass: Option<Place>,
    pub members: Vec<Member>,
}
