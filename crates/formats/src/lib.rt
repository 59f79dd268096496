//! The bytes of a sheet: the places of its texts, what is read where, and why a sheet cannot be read.
//!
//! The proofs of this crate are a library too: readers that are made of others, each with the layout that it reads.

#![tactic(auto)]

ghost use Rattle.std.specs.Prelude.{◌≡◌, ◌≤◌, length};
ghost use Rattle.formats.specs.Refusals.{reading_refusal};

mod cursor;
mod names;
mod reading;

pub use cursor::{Cursor, Text};
pub use names::is_name;
use refusals::{Layer, Numbered};

/// A sheet has no more bytes than this.
pub const MOST_BYTES: usize = 65535;

/// The bytes of a sheet from its first one up to some end.
///
/// The reader of a member is given the sheet up to that member's end, so that offsets stay those of the whole sheet.
#[derive(Clone, Copy)]
pub struct Sheet<'s> {
    bytes: &'s [u8],
    ghost short: { length bytes.now ≤ 65535 },
}

/// Where a text lies in its sheet.
#[derive(Clone, Copy, Default)]
pub struct Place {
    pub start: u16,
    pub length: u16,
}

/// Why a sheet cannot be read, with the offset of the field at fault.
#[derive(Clone, Copy)]
pub enum ReadFault {
    /// The first byte is no version that is known.
    Version,
    /// The sheet, or the rest of a member, ends inside of the field.
    CutShort { at: usize },
    /// Bytes are left over; `at` is the first of them.
    Spare { at: usize },
    /// A code or a flag that is not known, or a count over its limit.
    Unknown { at: usize },
    /// The text has to be a name, and is none.
    NoName { at: usize },
}

impl From<ReadFault> for Numbered {
    ghost from_gives = { λ fault told. told ≡ reading_refusal fault };

    fn from(fault: ReadFault) -> Numbered {
        let (number, place) = match fault {
            ReadFault::Version => (1, 0),
            ReadFault::CutShort { at } => (2, at),
            ReadFault::Spare { at } => (3, at),
            ReadFault::Unknown { at } => (4, at),
            ReadFault::NoName { at } => (5, at),
        };
        Numbered {
            number,
            layer: Layer::Reading,
            place,
        }
    }
}
