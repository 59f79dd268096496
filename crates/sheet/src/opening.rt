//! What stands before the members: version, class name, superclass, and how many members there are.
ghost use Rattle.std.specs.Prelude.{◌≡◌};
ghost use Rattle.formats.specs.Cursors.{ReadsBy};
ghost use Rattle.sheet.specs.Opening.{opening_from};

use formats::{Cursor, Place, ReadFault, is_name};

pub const MOST_MEMBERS: usize = 64;

/// What a sheet begins with.
#[derive(Clone, Copy)]
pub struct Opening {
    pub name: Place,
    pub superclass: Option<Place>,
    pub count: usize,
}

/// What the sheet begins with.
pub(crate) fn read_opening(cursor: &mut Cursor<'_>) -> Result<Opening, ReadFault>
    ensures { ReadsBy opening_from cursor.old result cursor.new }
{
    if cursor.byte()? != 1 {
        return Err(ReadFault::Version);
    }
    let name = cursor.text()?;
    if !is_name(name.bytes) {
        return Err(ReadFault::NoName { at: name.at });
    }
    let name = name.place;
    let text = cursor.text()?.place;
    let superclass = (text.length != 0).then_some(text);
    let at = cursor.at;
    let count = usize::from(cursor.byte()?);
    if count > MOST_MEMBERS {
        return Err(ReadFault::Unknown { at });
    }
    Ok(Opening {
        name,
        superclass,
        count,
    })
}
