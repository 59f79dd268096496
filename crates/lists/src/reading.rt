//! A list as a sheet has it.
ghost use Rattle.std.specs.Prelude.{◌≡◌, ℕ, List, OnErr};
ghost use Rattle.formats.specs.Cursors.{ReadsBy};
ghost use Rattle.lists.specs.Listed.{Reader, list_at, shown};

use super::Bounded;
use formats::{Cursor, ReadFault};

/// What a list can hold. In the places of a list that hold none stands the default.
pub trait Item: Copy + Default {
    ghost reads: { List ℕ → Reader Self };

    /// The next item. Refused, it leaves the cursor where it was.
    fn read(cursor: &mut Cursor<'_>) -> Result<Self, ReadFault>
        ensures reads { ReadsBy reads cursor.old result cursor.new }
        ensures stays { OnErr result (cursor.new ≡ cursor.old) };
}

/// The next list. A count over `N` is refused. Refused, it leaves the cursor where it was.
pub fn read_list<T: Item, const N: usize>(
    cursor: &mut Cursor<'_>,
) -> Result<Bounded<T, N>, ReadFault>
    ensures reads { ReadsBy (list_at N T.Item.reads) cursor.old (shown result) cursor.new }
    ensures stays { OnErr result (cursor.new ≡ cursor.old) }
{
    let at = cursor.at;
    // a copy reads on, so that a refusal leaves the cursor itself where it was
    let mut next = *cursor;
    let count = usize::from(next.byte()?);
    if count > N {
        return Err(ReadFault::Unknown { at });
    }
    let mut list = Bounded::new(T::default());
    for _ in 0..count {
        let item = T::read(&mut next)?;
        list.push(item);
    }
    *cursor = next;
    Ok(list)
}
