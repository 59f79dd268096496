//! The record of a lowered class.
use crate::naming::{MOST_NAMES, MOST_VARIABLES};
use crate::tables::Table;
use crate::taking::MOST_ASSIGNMENTS;
use rules::{Assignment, Descriptor, Frame, Made, Name};
use sheet::MOST_MEMBERS;

mod filling;

/// What a lowering makes of a class.
#[derive(Drop)]
pub struct Record {
    /// What is evaluated ahead of the class, in this order.
    pub assignments: Table<Assignment, MOST_ASSIGNMENTS>,
    /// The members, in written order.
    pub members: Table<Made, MOST_MEMBERS>,
    /// The descriptors, in the order in which the helper gets them.
    pub descriptors: Table<Descriptor, MOST_MEMBERS>,
    /// The names, in the order of the helper's results.
    pub names: Table<Name, MOST_NAMES>,
    pub variables: Table<Name, MOST_VARIABLES>,
    pub frame: Frame,
}
