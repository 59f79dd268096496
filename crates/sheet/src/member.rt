//! A member of a class.
ghost use Rattle.std.specs.Prelude.{◌≡◌, true};
ghost use Rattle.sheet.specs.Rules.{lawful, settable, fits};
ghost use Rattle.sheet.specs.Seen.{seen_parts, outline};

use crate::parts::Parts;

mod made;

/// A member that keeps the rules. Only the reader of this crate makes one.
#[derive(Clone, Copy)]
pub struct Member {
    parts: Parts,
    ghost fitting: { fits parts.kind parts.body ≡ true },
    ghost kept: { lawful (outline (seen_parts parts)) ≡ true },
    ghost called: { settable (outline (seen_parts parts)) ≡ true },
}
