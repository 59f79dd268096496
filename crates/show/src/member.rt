//! A member of a class as it is shown: a line that names it, and a line for each of its other parts.
use crate::text::{Spaced, Text};
use sheet::{Body, KeyKind, Kind, Parts, Place, Sheet};
use std::fmt;
use std::fmt::Display;

/// A member, the `number`th of its class, counted from 0, and the sheet that has its texts.
#[derive(Clone, Copy)]
pub struct Entry<'s> {
    pub number: usize,
    pub parts: &'s Parts,
    pub sheet: Sheet<'s>,
}

/// What the text of a member of this kind is called, where it has only one. Kinds share these words, so this is no `Display`.
fn text_word(kind: Kind) -> &'static str {
    match kind {
        Kind::Field | Kind::Accessor => "value",
        Kind::Other => "text",
        _ => "body",
    }
}

impl<'s> Entry<'s> {
    /// The text at a place of the sheet, as it ends a line.
    fn spaced(&self, place: Place) -> Spaced<'s> {
        Text::new(self.sheet, place).spaced()
    }

    fn write_flags<W: fmt::Write>(&self, f: &mut fmt::Formatter<W>) -> fmt::Result {
        let flags = self.parts.flags;
        let words = [
            (flags.is_static, "static "),
            (flags.is_declared, "declare "),
            (flags.is_async, "async "),
            (flags.is_generator, "generator "),
            (flags.is_private, "private "),
        ];
        for (is_set, word) in words {
            if is_set {
                f.write_str(word)?;
            }
        }
        Ok(())
    }

    /// The key as JavaScript writes it, which ends the member's first line; and what it is, but for identifiers.
    fn write_key<W: fmt::Write>(&self, f: &mut fmt::Formatter<W>) -> fmt::Result {
        let kind = self.parts.key.kind;
        let text = Text::new(self.sheet, self.parts.key.text);
        match kind {
            KeyKind::Identifier if self.parts.flags.is_private => return writeln!(f, " #{text}"),
            KeyKind::Identifier => return text.spaced().fmt(f),
            KeyKind::Literal => text.spaced().fmt(f)?,
            KeyKind::ComputedIdentifier | KeyKind::Computed => writeln!(f, " [{text}]")?,
        }
        writeln!(f, "  key: {kind}")
    }

    /// The line of a decorator or a parameter: what it begins with, of which kind the item is, and its text.
    fn write_item<W: fmt::Write>(
        &self,
        beginning: &str,
        kind: impl fmt::Display + Drop,
        text: Place,
        f: &mut fmt::Formatter<W>,
    ) -> fmt::Result {
        f.write_str(beginning)?;
        kind.fmt(f)?;
        self.spaced(text).fmt(f)
    }

    fn write_body<W: fmt::Write>(&self, f: &mut fmt::Formatter<W>) -> fmt::Result {
        let word = text_word(self.parts.kind);
        match self.parts.body {
            None => writeln!(f, "  no {word}"),
            Some(Body::Text(text)) => write!(f, "  {word}:{}", self.spaced(text)),
            Some(Body::Constructor { head, tail }) => {
                f.write_str("  head:")?;
                self.spaced(head).fmt(f)?;
                f.write_str("  tail:")?;
                self.spaced(tail).fmt(f)
            }
        }
    }
}

impl fmt::Display for Entry<'_> {
    fn fmt<W: fmt::Write>(&self, f: &mut fmt::Formatter<W>) -> fmt::Result {
        let parts = self.parts;
        write!(f, "member {}: ", self.number)?;
        self.write_flags(f)?;
        parts.kind.fmt(f)?;
        self.write_key(f)?;
        for decorator in parts.decorators.as_slice() {
            self.write_item("  decorator: ", decorator.shape, decorator.text, f)?;
        }
        for parameter in parts.parameters.as_slice() {
            self.write_item("  parameter: ", parameter.form, parameter.text, f)?;
        }
        self.write_body(f)
    }
}
