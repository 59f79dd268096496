//! The calls of a run.
ghost use Rattle.std.specs.Prelude.{◌≡◌, [], IfOk};
ghost use Rattle.lowering.specs.States.{state_of, added, after_add, seen_in};
ghost use Rattle.lowering.specs.Lowers.{Lowers};
ghost use Rattle.lowering.specs.Recorded.{record_of};
ghost use Rattle.lowering.specs.Supplies.{supplied};

use super::Run;
use crate::draws::MOST_MARKS;
use crate::faults::{ClassFault, LowerFault};
use crate::numbers::Numbers;
use crate::records::Record;
use crate::supply::supply;
use crate::tables::Table;
use marks::Marks;
use rules::Held;
use sheet::{MOST_MEMBERS, Member};
use std::alloc::{AllocError, Global};

impl<S> Run<S> {
    /// A run with no member in hand, which goes on from this storage number.
    pub fn new(heap: Global, source: S, storage: u16) -> Result<Run<S>, AllocError>
    where
        S: Drop,
        ensures { IfOk result (λ run. state_of run ≡ record { members = []; storage = storage; source = source }) }
    {
        let hand = Table::new(heap)?;
        let numbers = Numbers { storage };
        Ok(Run {
            source,
            numbers,
            hand,
        })
    }

    /// Appends a member to the class in hand. A 65th is refused.
    #[tactic(auto, using(crate::proofs::Filled::written_push))]
    pub fn add(&mut self, member: Member) -> Result<(), ClassFault>
        ensures answer { result ≡ added (state_of self.old) }
        ensures after { state_of self.new ≡ after_add (state_of self.old) member }
    {
        if self.hand.as_slice().len() >= MOST_MEMBERS {
            return Err(ClassFault::TooMany);
        }
        self.hand.push(Held { member, key: None });
        Ok(())
    }
}

impl<S: Marks> Run<S> {
    /// Lowers the class in hand into the record, which is emptied first, and empties the class. Refused, it leaves class and
    /// storage number as they were and the record empty.
    pub fn lower(&mut self, derived: bool, out: &mut Record) -> Result<(), LowerFault>
        ensures answer { result ≡ supplied derived (state_of self.old).storage (S.free self.old.source) (seen_in (state_of self.old)) }
        ensures lowers { Lowers S.free S.steps derived (state_of self.old) result (state_of self.new) (record_of out.new) }
    {
        out.clear();
        // a buffer in place and a slice of it, since a lowering must not allocate
        let mut marks = [0; MOST_MARKS];
        let mut numbers = self.numbers;
        let before = numbers.last();
        let supplied = supply(
            &self.hand,
            derived,
            &mut self.source,
            &mut numbers,
            &mut marks,
        );
        self.numbers = numbers;
        let total = supplied?;
        out.fill(&mut self.hand, before, derived, &marks[0..total]);
        self.hand.clear();
        Ok(())
    }
}
