//! Single bytes and texts, read at an offset of a sheet.
ghost use Rattle.std.specs.Prelude.{◌≡◌, length, take};
ghost use Rattle.formats.specs.Reading.{bytes_of, byte_at, text_at, end, bytes_at};

use super::{MOST_BYTES, Place, ReadFault, Sheet};

impl Place {
    /// Where the text ends: the offset of the byte behind its last one.
    pub fn end(self) -> usize
        ensures { result ≡ end self }
    {
        usize::from(self.start) + usize::from(self.length)
    }
}

impl<'s> Sheet<'s> {
    /// The sheet in `bytes`, of which it takes no more than a sheet can have.
    pub fn first(bytes: &'s [u8]) -> Sheet<'s>
        ensures { bytes_of result ≡ take 65535 bytes.now }
    {
        let end = bytes.len().min(MOST_BYTES);
        Sheet {
            bytes: &bytes[..end],
        }
    }

    /// The sheet up to `end`, or the whole of it where it ends before.
    pub fn up_to(self, end: usize) -> Sheet<'s>
        ensures { bytes_of result ≡ take end (bytes_of self.entry) }
    {
        let bytes = self.bytes;
        let end = end.min(bytes.len());
        Sheet {
            bytes: &bytes[..end],
        }
    }

    /// How many bytes there are.
    pub fn len(self) -> usize
        ensures { result ≡ length (bytes_of self.entry) }
    {
        self.bytes.len()
    }

    /// The byte at `at`.
    pub fn byte(self, at: usize) -> Result<u8, ReadFault>
        ensures { result ≡ byte_at (bytes_of self.entry) at }
    {
        self.bytes
            .get(at)
            .copied()
            .ok_or(ReadFault::CutShort { at })
    }

    /// The place of the text whose length stands in the two bytes at `at`, the high one first.
    pub fn text(self, at: usize) -> Result<Place, ReadFault>
        ensures { result ≡ text_at (bytes_of self.entry) at }
    {
        let Some([high, low, rest @ ..]) = self.bytes.get(at..) else {
            return Err(ReadFault::CutShort { at });
        };
        let length = u16::from_be_bytes([*high, *low]);
        if usize::from(length) > rest.len() {
            return Err(ReadFault::CutShort { at });
        }
        let start = (at + 2) as u16;
        Ok(Place { start, length })
    }

    /// The bytes at a place, as far as the sheet has them.
    pub fn part(self, place: Place) -> &'s [u8]
        ensures { result.now ≡ bytes_at (bytes_of self.entry) place }
    {
        let bytes = self.bytes;
        let start = bytes.len().min(usize::from(place.start));
        let end = bytes.len().min(place.end());
        &bytes[start..end]
    }
}
