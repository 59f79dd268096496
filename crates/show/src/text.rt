//! Texts of a sheet on a line of a terminal.
use sheet::{Place, Sheet};
use std::fmt;
use std::fmt::Display;

/// A text of a sheet, shown on one line and without a control character.
///
/// Printable ASCII stands as it is, but for the backslash. What lies beyond ASCII does so too if the whole text is UTF-8.
#[derive(Clone, Copy)]
pub struct Text<'s> {
    bytes: &'s [u8],
}

/// The rest of a line: a blank and a text, or nothing where the text is empty, and the line feed.
#[derive(Clone, Copy)]
pub struct Spaced<'s>(Text<'s>);

impl<'s> Text<'s> {
    /// The text at a place of a sheet.
    pub(crate) fn new(sheet: Sheet<'s>, place: Place) -> Text<'s> {
        Text {
            bytes: sheet.part(place),
        }
    }

    /// The text as the rest of a line.
    pub(crate) fn spaced(self) -> Spaced<'s> {
        Spaced(self)
    }
}

/// Writes a character as it is, or a control character or a backslash as an escape.
fn write_char<W: fmt::Write>(c: char, f: &mut fmt::Formatter<W>) -> fmt::Result {
    // The library's own escapes would change quotation marks too.
    match c {
        '\n' => f.write_str("\\n"),
        '\r' => f.write_str("\\r"),
        '\t' => f.write_str("\\t"),
        '\\' => f.write_str("\\\\"),
        _ if c.is_control() => write!(f, "\\x{:02x}", u32::from(c)),
        _ => f.write_char(c),
    }
}

/// Writes a byte of a text that is no UTF-8.
fn write_byte<W: fmt::Write>(byte: u8, f: &mut fmt::Formatter<W>) -> fmt::Result {
    if byte.is_ascii() {
        write_char(char::from(byte), f)
    } else {
        write!(f, "\\x{byte:02x}")
    }
}

impl fmt::Display for Text<'_> {
    fn fmt<W: fmt::Write>(&self, f: &mut fmt::Formatter<W>) -> fmt::Result {
        match std::str::from_utf8(self.bytes) {
            Ok(text) => text.chars().try_for_each(|c| write_char(c, f)),
            Err(_) => self.bytes.iter().try_for_each(|byte| write_byte(*byte, f)),
        }
    }
}

impl fmt::Display for Spaced<'_> {
    fn fmt<W: fmt::Write>(&self, f: &mut fmt::Formatter<W>) -> fmt::Result {
        let text = self.0;
        if !text.bytes.is_empty() {
            f.write_str(" ")?;
            text.fmt(f)?;
        }
        f.write_str("\n")
    }
}
