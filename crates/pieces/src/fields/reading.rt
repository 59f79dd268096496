//! Reads the fields of a member.
ghost use Rattle.std.specs.Prelude.{◌≡◌};
ghost use Rattle.formats.specs.Cursors.{bytes_in, ReadsBy};
ghost use Rattle.pieces.specs.Fields.{key_at, head_at, body_text_at, body_at, fields_at, seen_fields};

use super::{Head, MOST_DECORATORS, MOST_PARAMETERS, Written};
use crate::codes::{FlagByte, Kind, read_code};
use crate::parts::{Body, Decorator, Key, Parameter};
use crate::piece::Piece;
use formats::{Cursor, Place, ReadFault};
use lists::read_list;

/// The next key, of a member of the kind `of`.
fn read_key(cursor: &mut Cursor<'_>, of: Kind) -> Result<Key, ReadFault>
    ensures { ReadsBy (λ s. key_at s of) cursor.old result cursor.new }
{
    let kind = read_code(cursor)?;
    let text = cursor.text()?;
    let text = Piece::Key { of, kind, text }.checked()?.place();
    Ok(Key { kind, text })
}

/// The kind, the flags and the key, which come next.
fn read_head(cursor: &mut Cursor<'_>) -> Result<Head, ReadFault>
    ensures { ReadsBy head_at cursor.old result cursor.new }
{
    let kind = read_code(cursor)?;
    let FlagByte { flags, present } = read_code(cursor)?;
    let key = read_key(cursor, kind)?;
    Ok(Head {
        kind,
        flags,
        present,
        key,
    })
}

/// The next text of a value, or of a body or a half of one.
fn read_text(cursor: &mut Cursor<'_>) -> Result<Place, ReadFault>
    ensures { ReadsBy body_text_at cursor.old result cursor.new }
{
    Ok(Piece::Body(cursor.text()?).checked()?.place())
}

/// The next text, or the two texts of a constructor.
fn read_body(cursor: &mut Cursor<'_>, kind: Kind) -> Result<Body, ReadFault>
    ensures { ReadsBy (λ s. body_at s kind) cursor.old result cursor.new }
{
    let first = read_text(cursor)?;
    if !matches!(kind, Kind::Constructor) {
        return Ok(Body::Text(first));
    }
    let tail = read_text(cursor)?;
    Ok(Body::Constructor { head: first, tail })
}

/// The fields of the member that begin at the cursor and end with its sheet.
pub fn read_fields(mut cursor: Cursor<'_>) -> Result<Written, ReadFault>
    ensures { seen_fields result ≡ fields_at (bytes_in cursor.entry) cursor.entry.at }
{
    let head = read_head(&mut cursor)?;
    let decorators = read_list::<Decorator, MOST_DECORATORS>(&mut cursor)?;
    let parameters = read_list::<Parameter, MOST_PARAMETERS>(&mut cursor)?;
    let body = read_body(&mut cursor, head.kind)?;
    if !cursor.is_at_end() {
        return Err(ReadFault::Spare { at: cursor.at });
    }
    Ok(Written {
        head,
        decorators,
        parameters,
        body,
    })
}
