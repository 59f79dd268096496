//! Reading a sheet field after field.
ghost use Rattle.std.specs.Prelude.{◌≡◌, length, take, nat_le, OnErr};
ghost use Rattle.formats.specs.Reading.{end};
ghost use Rattle.formats.specs.Cursors.{bytes_in, ReadsBy, byte_and_next, text_and_next, placed};

use super::{Place, ReadFault, Sheet};

/// A text of a sheet: where its length stands, its bytes, and where they lie.
#[derive(Clone, Copy)]
pub struct Text<'s> {
    pub at: usize,
    pub bytes: &'s [u8],
    pub place: Place,
}

/// Where a sheet is being read: the next field begins at `at`.
#[derive(Clone, Copy)]
pub struct Cursor<'s> {
    pub sheet: Sheet<'s>,
    pub at: usize,
}

impl<'s> Cursor<'s> {
    /// The field that begins at `at`.
    pub fn new(sheet: Sheet<'s>, at: usize) -> Cursor<'s>
        ensures sheet { result.sheet ≡ sheet.entry }
        ensures at { result.at ≡ at }
    {
        Cursor { sheet, at }
    }

    /// Whether there is no field any more.
    pub fn is_at_end(&self) -> bool
        ensures { result ≡ nat_le (length (bytes_in self.now)) self.now.at }
    {
        self.at >= self.sheet.len()
    }

    /// A cursor at the first byte of `place`, whose sheet ends with the last one.
    pub fn within(&self, place: Place) -> Cursor<'s>
        ensures bytes { bytes_in result ≡ take (end place) (bytes_in self.now) }
        ensures at { result.at ≡ place.start }
    {
        Cursor {
            sheet: self.sheet.up_to(place.end()),
            at: usize::from(place.start),
        }
    }

    /// The next byte. Where there is none, the cursor stays where it is.
    pub fn byte(&mut self) -> Result<u8, ReadFault>
        ensures reads { ReadsBy byte_and_next self.old result self.new }
        ensures stays { OnErr result (self.new ≡ self.old) }
    {
        let byte = self.sheet.byte(self.at)?;
        self.at += 1;
        Ok(byte)
    }

    /// The next text, behind its length. Where there is none, the cursor stays where it is.
    pub fn text(&mut self) -> Result<Text<'s>, ReadFault>
        ensures reads { ReadsBy text_and_next self.old (placed result) self.new }
        ensures stays { OnErr result (self.new ≡ self.old) }
    {
        let at = self.at;
        let place = self.sheet.text(at)?;
        self.at = place.end();
        let bytes = self.sheet.part(place);
        Ok(Text { at, bytes, place })
    }
}
