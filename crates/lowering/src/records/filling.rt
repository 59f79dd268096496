//! How a record is filled.
ghost use Rattle.std.specs.Prelude.{◌≡◌, ◌+◌, ◌≤◌, true, [], map, length, IfOk, count_by};
ghost use Rattle.rules.specs.Members.{accessor};
ghost use Rattle.rules.specs.Records.{assembled, lowered, empty_record, empty_frame};
ghost use Rattle.rules.specs.Walks.{item_of};
ghost use Rattle.lowering.specs.Hands.{seen_hand};
ghost use Rattle.lowering.specs.Recorded.{record_of};
ghost use Rattle.lowering.specs.Rows.{rows_of};

use super::Record;
use crate::building::construct;
use crate::describing::describe_all;
use crate::names::Names;
use crate::naming::{declare_all, name_all, starter_of};
use crate::tables::Table;
use crate::walks::{walk_first, walk_second, walk_third};
use rules::{Constructor, Frame, Held};
use sheet::MOST_MEMBERS;
use std::alloc::{AllocError, Global};

const EMPTY_FRAME: Frame = Frame {
    instance_starter: None,
    static_starter: None,
    block: false,
    constructor: Constructor::AsWritten,
};

impl Record {
    /// An empty record with room for every class.
    pub fn new(heap: Global) -> Result<Record, AllocError>
        ensures { IfOk result (λ out. record_of out ≡ empty_record) }
    {
        Ok(Record {
            assignments: Table::new(heap)?,
            members: Table::new(heap)?,
            descriptors: Table::new(heap)?,
            names: Table::new(heap)?,
            variables: Table::new(heap)?,
            frame: EMPTY_FRAME,
        })
    }

    pub(crate) fn clear(&mut self)
        ensures { record_of self.new ≡ empty_record }
    {
        self.assignments.clear();
        self.members.clear();
        self.descriptors.clear();
        self.names.clear();
        self.variables.clear();
        self.frame = EMPTY_FRAME;
    }

    /// The binding: descriptors, names and variables are put together from the members and what was made of them.
    fn assemble(&mut self, constructor: Constructor)
        ensures { record_of self.new ≡ assembled (rows_of self.old.assignments) (map item_of (rows_of self.old.members)) constructor }
    {
        describe_all(&self.members, &mut self.descriptors);
        let frame = Frame {
            instance_starter: starter_of(false, &self.members),
            static_starter: starter_of(true, &self.members),
            block: !self.descriptors.as_slice().is_empty(),
            constructor,
        };
        name_all(&self.members, frame, &mut self.names);
        declare_all(&self.assignments, &self.members, frame, &mut self.variables);
        self.frame = frame;
    }

    /// Fills the record with what the rules make of the members in hand, with the marks that were drawn for them.
    pub(crate) fn fill(
        &mut self,
        hand: &mut Table<Held, MOST_MEMBERS>,
        number: u16,
        derived: bool,
        marks: &[u16],
    )
        requires { number + count_by accessor (seen_hand (rows_of hand.old)) ≤ 65535 }
        ensures { record_of self.new ≡ lowered (seen_hand (rows_of hand.old)) derived number marks.now }
    {
        let mut names = Names::of(marks);
        walk_first(hand, &mut names, &mut self.assignments, &mut self.members);
        let calls = walk_second(&mut self.members, number, &mut names);
        walk_third(&mut self.members, &mut names);
        let constructor = construct(self.members.as_slice(), derived, calls, &mut names);
        self.assemble(constructor);
    }
}
