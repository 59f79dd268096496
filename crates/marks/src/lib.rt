//! Marks: the numbers by which made names are told apart, and the sources that supply them.
//!
//! A mark is a whole number from 1 to 65,535. The meaning of a source is the set of marks that are still free.

#![tactic(auto)]

mod counting;
mod examples;
mod listing;
mod reserving;
mod several;
mod source;

pub use counting::{Counter, counter_draws_in_order};
pub use examples::{seven_then_none, two_then_four};
pub use listing::MarkList;
pub use reserving::{Reserved, draw_least};
pub use several::draw_into;
pub use source::{Exhausted, Marks};
