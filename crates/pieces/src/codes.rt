//! The codes of a member: its kind, its flags, and the kinds of its key, decorators and parameters.
ghost use Rattle.std.specs.Prelude.{◌≡◌, ◌<◌, Some};
ghost use Rattle.pieces.specs.Codes.{Decodes, kind_code, all_kinds, key_code, all_key_kinds, shape_code, all_shapes, form_code, all_forms, flag, HasFlags};
ghost use Rattle.pieces.specs.Words.{kind_name, key_kind_name, shape_name, form_name};

use std::fmt;

mod reading;

pub(crate) use reading::read_code;

/// What a member is.
#[derive(Clone, Copy)]
pub enum Kind {
    Field,
    Accessor,
    Method,
    Getter,
    Setter,
    Constructor,
    /// A member that the lowering leaves as it stands, such as a static block.
    Other,
}

/// What a member's key is.
#[derive(Clone, Copy)]
pub enum KeyKind {
    Identifier,
    /// A string or a number.
    Literal,
    /// An identifier in brackets.
    ComputedIdentifier,
    /// Any other expression in brackets.
    Computed,
}

/// What expression a decorator is.
#[derive(Clone, Copy, Default)]
pub enum Shape {
    Identifier,
    Arrow,
    Function,
    #[default]
    Other,
}

/// What a parameter is: a plain identifier, or a pattern, a rest parameter or one with a default.
#[derive(Clone, Copy, Default)]
pub enum Form {
    #[default]
    Other,
    Plain,
}

/// The flags of a member, but for the one that says whether its value or body is there.
#[derive(Clone, Copy)]
pub struct Flags {
    pub is_static: bool,
    pub is_private: bool,
    pub is_async: bool,
    pub is_generator: bool,
    pub is_declared: bool,
}

/// The flags of a member as its sheet has them.
#[derive(Clone, Copy)]
pub struct FlagByte {
    pub flags: Flags,
    /// Whether the value or body is there.
    pub present: bool,
}

/// A byte that stands for nothing.
#[derive(Clone, Copy)]
pub struct UnknownCode;

impl TryFrom<u8> for Kind {
    type Error = UnknownCode;

    ghost try_from_gives = { Decodes kind_code all_kinds };

    fn try_from(code: u8) -> Result<Kind, UnknownCode> {
        match code {
            0 => Ok(Kind::Field),
            1 => Ok(Kind::Accessor),
            2 => Ok(Kind::Method),
            3 => Ok(Kind::Getter),
            4 => Ok(Kind::Setter),
            5 => Ok(Kind::Constructor),
            6 => Ok(Kind::Other),
            _ => Err(UnknownCode),
        }
    }
}

impl From<Kind> for u8 {
    ghost from_gives = { λ kind code. code ≡ kind_code kind };

    fn from(kind: Kind) -> u8 {
        kind as u8
    }
}

impl TryFrom<u8> for KeyKind {
    type Error = UnknownCode;

    ghost try_from_gives = { Decodes key_code all_key_kinds };

    fn try_from(code: u8) -> Result<KeyKind, UnknownCode> {
        match code {
            0 => Ok(KeyKind::Identifier),
            1 => Ok(KeyKind::Literal),
            2 => Ok(KeyKind::ComputedIdentifier),
            3 => Ok(KeyKind::Computed),
            _ => Err(UnknownCode),
        }
    }
}

impl TryFrom<u8> for Shape {
    type Error = UnknownCode;

    ghost try_from_gives = { Decodes shape_code all_shapes };

    fn try_from(code: u8) -> Result<Shape, UnknownCode> {
        match code {
            0 => Ok(Shape::Identifier),
            1 => Ok(Shape::Arrow),
            2 => Ok(Shape::Function),
            3 => Ok(Shape::Other),
            _ => Err(UnknownCode),
        }
    }
}

impl TryFrom<u8> for Form {
    type Error = UnknownCode;

    ghost try_from_gives = { Decodes form_code all_forms };

    fn try_from(code: u8) -> Result<Form, UnknownCode> {
        match code {
            0 => Ok(Form::Other),
            1 => Ok(Form::Plain),
            _ => Err(UnknownCode),
        }
    }
}

// The values of the flags.

const STATIC: u8 = 1;

const PRIVATE: u8 = 2;

const PRESENT: u8 = 4;

const ASYNC: u8 = 8;

const GENERATOR: u8 = 16;

const DECLARED: u8 = 32;

/// Whether the flag of this value is set.
fn has_flag(code: u8, value: u8) -> bool
    requires { 0 < value }
    ensures { result ≡ flag value code }
{
    code / value % 2 == 1
}

impl TryFrom<u8> for FlagByte {
    type Error = UnknownCode;

    ghost try_from_gives = { HasFlags };

    fn try_from(code: u8) -> Result<FlagByte, UnknownCode> {
        if code >= 64 {
            return Err(UnknownCode);
        }
        let flags = Flags {
            is_static: has_flag(code, STATIC),
            is_private: has_flag(code, PRIVATE),
            is_async: has_flag(code, ASYNC),
            is_generator: has_flag(code, GENERATOR),
            is_declared: has_flag(code, DECLARED),
        };
        let present = has_flag(code, PRESENT);
        Ok(FlagByte { flags, present })
    }
}

// The words by which the codes are told.

impl fmt::Display for Kind {
    ghost output = { λ k. Some (kind_name k) };

    fn fmt<W: fmt::Write>(&self, f: &mut fmt::Formatter<W>) -> fmt::Result {
        f.write_str(match self {
            Kind::Field => "field",
            Kind::Accessor => "accessor",
            Kind::Method => "method",
            Kind::Getter => "getter",
            Kind::Setter => "setter",
            Kind::Constructor => "constructor",
            Kind::Other => "other",
        })
    }
}

impl fmt::Display for KeyKind {
    ghost output = { λ k. Some (key_kind_name k) };

    fn fmt<W: fmt::Write>(&self, f: &mut fmt::Formatter<W>) -> fmt::Result {
        f.write_str(match self {
            KeyKind::Identifier => "identifier",
            KeyKind::Literal => "string or number literal",
            KeyKind::ComputedIdentifier => "computed identifier",
            KeyKind::Computed => "computed",
        })
    }
}

impl fmt::Display for Shape {
    ghost output = { λ s. Some (shape_name s) };

    fn fmt<W: fmt::Write>(&self, f: &mut fmt::Formatter<W>) -> fmt::Result {
        f.write_str(match self {
            Shape::Identifier => "identifier",
            Shape::Arrow => "arrow",
            Shape::Function => "function",
            Shape::Other => "other",
        })
    }
}

impl fmt::Display for Form {
    ghost output = { λ x. Some (form_name x) };

    fn fmt<W: fmt::Write>(&self, f: &mut fmt::Formatter<W>) -> fmt::Result {
        f.write_str(match self {
            Form::Other => "other",
            Form::Plain => "plain",
        })
    }
}
