//! The lowering: a run takes members and lowers the class in hand into a record.

#![tactic(auto)]

mod building;
mod checks;
mod describing;
mod draws;
mod examples;
mod faults;
mod groups;
mod making;
mod members;
mod names;
mod naming;
mod numbers;
mod records;
mod run;
mod supply;
mod tables;
mod taking;
mod walks;

pub use examples::examples_stand;
pub use faults::{ClassFault, LowerFault};
pub use records::Record;
pub use run::Run;
pub use tables::Table;
