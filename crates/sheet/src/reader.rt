//! Reads a member, and then looks at its rules.
ghost use Rattle.std.specs.Prelude.{◌≡◌};
ghost use Rattle.formats.specs.Cursors.{ReadsBy};
ghost use Rattle.pieces.specs.Fields.{seen_written};
ghost use Rattle.sheet.specs.Members.{is_blank, body_of, member_of, made_in, member_at, seen};

use crate::member::Member;
use crate::parts::Parts;
use crate::refusal::{MemberFault, Refusal};
use formats::Cursor;
use pieces::fields::{Written, read_fields};
use pieces::parts::Body;

fn is_blank(body: Body) -> bool
    ensures { result ≡ is_blank body }
{
    match body {
        Body::Text(place) => place.length == 0,
        Body::Constructor { head, tail } => head.length == 0 && tail.length == 0,
    }
}

/// The value or body of a member at `at`: where it is not there, its texts are empty.
fn body_of(present: bool, body: Body, at: usize) -> Result<Option<Body>, MemberFault>
    ensures { result ≡ body_of present body at }
{
    if present {
        Ok(Some(body))
    } else if is_blank(body) {
        Ok(None)
    } else {
        Err(MemberFault::BrokenRule { at })
    }
}

/// The member at `at` that has these fields.
fn member_of(written: Written, at: usize) -> Result<Member, MemberFault>
    ensures { made_in result ≡ member_of (seen_written written) at }
{
    let head = written.head;
    let body = body_of(head.present, written.body, at)?;
    let parts = Parts {
        kind: head.kind,
        flags: head.flags,
        key: head.key,
        decorators: written.decorators,
        parameters: written.parameters,
        body,
    };
    Member::new(parts, at)
}

/// The next member.
pub(crate) fn read_member(cursor: &mut Cursor<'_>) -> Result<Member, Refusal>
    ensures { ReadsBy member_at cursor.old (seen result) cursor.new }
{
    let rest = cursor.text()?;
    let written = read_fields(cursor.within(rest.place))?;
    Ok(member_of(written, rest.at)?)
}
