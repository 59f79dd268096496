//! Reads a whole sheet.
ghost use Rattle.std.specs.Prelude.{◌≡◌};
ghost use Rattle.formats.specs.Reading.{bytes_of};
ghost use Rattle.formats.specs.Cursors.{bytes_in, with_next};
ghost use Rattle.sheet.specs.Claims.{AcceptedIsLaidOut, LaidOutIsRead};
ghost use Rattle.sheet.specs.Classes.{members_at, class_at, sheet_at, seen_members, seen_sheet, Answers, Opened};

use crate::class::Class;
use crate::member::Member;
use crate::opening::read_opening;
use crate::reader::read_member;
use crate::refusal::Refusal;
use formats::{Cursor, MOST_BYTES, ReadFault, Sheet};
use std::alloc::Global;

/// So many members.
fn read_members(heap: Global, cursor: &mut Cursor<'_>, count: usize) -> Result<Vec<Member>, Refusal>
    ensures members { Answers Unit (with_next (seen_members result) cursor.new.at) (members_at (bytes_in cursor.old) count cursor.old.at) }
    ensures sheet { cursor.new.sheet ≡ cursor.old.sheet }
{
    let mut members = Vec::with_capacity(heap, count)?;
    for _ in 0..count {
        let member = read_member(cursor)?;
        members.push_reserved(member);
    }
    Ok(members)
}

fn read_class(heap: Global, sheet: Sheet<'_>) -> Result<Class, Refusal>
    ensures { Answers (Opened (bytes_of sheet.entry)) (seen_sheet result) (class_at (bytes_of sheet.entry)) }
{
    let mut cursor = Cursor::new(sheet, 0);
    let opening = read_opening(&mut cursor)?;
    let members = read_members(heap, &mut cursor, opening.count)?;
    if !cursor.is_at_end() {
        return Err(ReadFault::Spare { at: cursor.at }.into());
    }
    Ok(Class {
        name: opening.name,
        superclass: opening.superclass,
        members,
    })
}

fn read_bytes(heap: Global, bytes: &[u8]) -> Result<Class, Refusal>
    ensures { Answers (Opened bytes.now) (seen_sheet result) (sheet_at bytes.now) }
{
    if bytes.len() > MOST_BYTES {
        return Err(ReadFault::Spare { at: MOST_BYTES }.into());
    }
    read_class(heap, Sheet::first(bytes))
}

/// The class that a sheet describes. It is read in one pass, and memory is asked for once, for the members.
///
/// What is accepted is the layout of the class that is answered, and the layout of every class that keeps the limits and
/// the rules is read as that class.
pub fn read(heap: Global, bytes: &[u8]) -> Result<Class, Refusal>
    ensures sound { AcceptedIsLaidOut bytes.now result }
    ensures complete { LaidOutIsRead bytes.now result }
    ensures answer { Answers (Opened bytes.now) (seen_sheet result) (sheet_at bytes.now) }
{
    read_bytes(heap, bytes)
}
