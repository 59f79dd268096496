//! Sheets: the binary description of a class, read into its members.

#![tactic(auto)]

mod class;
mod member;
mod opening;
mod parts;
mod reader;
mod refusal;
mod rules;
mod whole;

pub use class::Class;
pub use formats::{Place, ReadFault, Sheet};
pub use member::Member;
pub use opening::MOST_MEMBERS;
pub use parts::Parts;
pub use pieces::codes::{Flags, Form, KeyKind, Kind, Shape, UnknownCode};
pub use pieces::parts::{Body, Decorator, Key, Parameter};
pub use refusal::{MemberFault, Refusal};
pub use refusals::{Layer, Numbered};
pub use whole::read;
