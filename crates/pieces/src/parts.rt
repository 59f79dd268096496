//! A key, a decorator, a parameter and a body: what each is, and the place of its text.
ghost use Rattle.std.specs.Prelude.{◌≡◌};
ghost use Rattle.pieces.specs.Items.{decorator_at, parameter_at};

use crate::codes::{Form, KeyKind, Shape, read_code};
use crate::piece::Piece;
use formats::{Cursor, Place, ReadFault};
use lists::Item;

// A key, a decorator and a parameter are each a code and a text. They stay three structs: one generic struct would call a kind, a
// shape and a form by one name, and save nothing where they are read, since each has a case of its own in `Piece`.

#[derive(Clone, Copy)]
pub struct Key {
    pub kind: KeyKind,
    pub text: Place,
}

#[derive(Clone, Copy, Default)]
pub struct Decorator {
    pub shape: Shape,
    pub text: Place,
}

#[derive(Clone, Copy, Default)]
pub struct Parameter {
    pub form: Form,
    pub text: Place,
}

/// The value of a field or an accessor, the body of a function, the text of any other member; or a constructor's two texts.
#[derive(Clone, Copy)]
pub enum Body {
    Text(Place),
    /// What stands up to and with the super call, and what follows it.
    Constructor { head: Place, tail: Place },
}

impl Item for Decorator {
    ghost reads = { decorator_at };

    fn read(cursor: &mut Cursor<'_>) -> Result<Decorator, ReadFault> {
        let mut next = *cursor;
        let shape = read_code(&mut next)?;
        let text = next.text()?;
        let text = Piece::Decorator { shape, text }.checked()?.place();
        *cursor = next;
        Ok(Decorator { shape, text })
    }
}

impl Item for Parameter {
    ghost reads = { parameter_at };

    fn read(cursor: &mut Cursor<'_>) -> Result<Parameter, ReadFault> {
        let mut next = *cursor;
        let form = read_code(&mut next)?;
        let text = next.text()?;
        let text = Piece::Parameter { form, text }.checked()?.place();
        *cursor = next;
        Ok(Parameter { form, text })
    }
}
