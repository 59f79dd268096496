//! Reads a byte as what it stands for.
ghost use Rattle.std.specs.Prelude.{◌≡◌, ℕ, Result};
ghost use Rattle.formats.specs.declared.ReadFault.{ReadFault};
ghost use Rattle.formats.specs.declared.ReadFault.TheVariants.{Unknown};
ghost use Rattle.formats.specs.Cursors.{ReadsBy};
ghost use Rattle.formats.specs.Readers.{faulted};
ghost use Rattle.pieces.specs.declared.codes.UnknownCode.{UnknownCode};
ghost use Rattle.pieces.specs.Codes.{kind_of, key_kind_of, shape_of, form_of, flag_byte_of, code_and_next};

use super::{FlagByte, Form, KeyKind, Kind, Shape, UnknownCode};
use formats::{Cursor, ReadFault};

/// What a byte of a member can stand for.
pub(crate) trait Coded: TryFrom<u8, Error = UnknownCode> {
    /// What a byte at some place of a sheet is read as.
    ghost read_as: { ℕ → ℕ → Result Self ReadFault };

    /// It is read as what it is taken for.
    ghost is_read: { (a : ℕ) (r : Result Self UnknownCode) → Self.try_from_gives a r → (at : ℕ) → faulted (λ _. Unknown at) r ≡ read_as a at };
}

impl Coded for Kind {
    ghost read_as = { kind_of };

    ghost is_read = { λ a r h at. h at };
}

impl Coded for KeyKind {
    ghost read_as = { key_kind_of };

    ghost is_read = { λ a r h at. h at };
}

impl Coded for Shape {
    ghost read_as = { shape_of };

    ghost is_read = { λ a r h at. h at };
}

impl Coded for Form {
    ghost read_as = { form_of };

    ghost is_read = { λ a r h at. h at };
}

impl Coded for FlagByte {
    ghost read_as = { flag_byte_of };

    ghost is_read = { λ a r h at. h at };
}

/// The next byte, as what it stands for.
pub(crate) fn read_code<T: Coded>(cursor: &mut Cursor<'_>) -> Result<T, ReadFault>
    ensures { ReadsBy (code_and_next T.Coded.read_as) cursor.old result cursor.new }
{
    let at = cursor.at;
    let byte = cursor.byte()?;
    T::try_from(byte).map_err(|_| ReadFault::Unknown { at })
}
