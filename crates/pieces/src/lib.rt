//! The fields of a member as a sheet has them: its codes, and its texts, each read as the part of the sheet that it is.

#![tactic(auto)]

pub mod codes;
pub mod fields;
pub mod parts;
mod piece;
