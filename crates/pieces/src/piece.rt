//! A text of a member as the part of the sheet that it is.
ghost use Rattle.std.specs.Prelude.{◌≡◌};
ghost use Rattle.formats.specs.Cursors.{placed_in};
ghost use Rattle.pieces.specs.Parts.{part, at_of, bytes_in, place_of, checked, shown, names_key, named};

use crate::codes::{Form, KeyKind, Kind, Shape};
use formats::{Place, ReadFault, Text, is_name};

/// A part of a sheet: what it is, and its text.
#[derive(Clone, Copy)]
pub enum Piece<'s> {
    /// The key of a member of the kind `of`.
    Key {
        of: Kind,
        kind: KeyKind,
        text: Text<'s>,
    },
    Decorator {
        shape: Shape,
        text: Text<'s>,
    },
    Parameter {
        form: Form,
        text: Text<'s>,
    },
    /// A value or body, or the head or tail of a constructor.
    Body(Text<'s>),
}

/// Whether a member of the kind `of` has a name for its key, where the key's kind is `kind`.
fn names_key(of: Kind, kind: KeyKind) -> bool
    ensures { result ≡ names_key of kind }
{
    match of {
        Kind::Constructor | Kind::Other => false,
        _ => matches!(kind, KeyKind::Identifier | KeyKind::ComputedIdentifier),
    }
}

impl<'s> Piece<'s> {
    fn text(self) -> Text<'s>
        ensures { placed_in result ≡ record { at = at_of self.entry; bytes = bytes_in (part self.entry); place = place_of (part self.entry) } }
    {
        match self {
            Piece::Key { text, .. }
            | Piece::Decorator { text, .. }
            | Piece::Parameter { text, .. }
            | Piece::Body(text) => text,
        }
    }

    /// Whether the piece has to be a name.
    fn is_named(self) -> bool
        ensures { result ≡ named (part self.entry) }
    {
        match self {
            Piece::Key { of, kind, .. } => names_key(of, kind),
            Piece::Decorator { shape, .. } => matches!(shape, Shape::Identifier),
            Piece::Parameter { form, .. } => matches!(form, Form::Plain),
            Piece::Body(_) => false,
        }
    }

    /// Where the piece lies in its sheet.
    pub(crate) fn place(self) -> Place
        ensures { result ≡ place_of (part self.entry) }
    {
        self.text().place
    }

    /// The piece itself, unless it has to be a name and is none.
    pub(crate) fn checked(self) -> Result<Piece<'s>, ReadFault>
        ensures { shown result ≡ checked (part self.entry) (at_of self.entry) }
    {
        let text = self.text();
        if self.is_named() && !is_name(text.bytes) {
            Err(ReadFault::NoName { at: text.at })
        } else {
            Ok(self)
        }
    }
}
