//! The rules that every member keeps.
ghost use Rattle.std.specs.Prelude.{◌≡◌};
ghost use Rattle.sheet.specs.Rules.{bare_kept, body_kept, parameters_kept, declare_kept, method_kept, private_kept, lawful, settable, decorated};
ghost use Rattle.sheet.specs.Seen.{seen_parts, outline};

use crate::parts::Parts;
use pieces::codes::{Form, KeyKind, Kind};

impl Parts {
    /// Whether there is a decorator.
    pub fn is_decorated(&self) -> bool
        ensures { result ≡ decorated (outline (seen_parts self.now)) }
    {
        !self.decorators.as_slice().is_empty()
    }

    /// Constructors and others are neither decorated, static nor private, and have an empty key that is an identifier.
    fn keeps_bare(&self) -> bool
        ensures { result ≡ bare_kept (outline (seen_parts self.now)) }
    {
        match self.kind {
            Kind::Constructor | Kind::Other => {
                !self.is_decorated()
                    && !self.flags.is_static
                    && !self.flags.is_private
                    && matches!(self.key.kind, KeyKind::Identifier)
                    && self.key.text.length == 0
            }
            _ => true,
        }
    }

    /// A decorated method, getter or setter has a body.
    fn keeps_body(&self) -> bool
        ensures { result ≡ body_kept (outline (seen_parts self.now)) }
    {
        match self.kind {
            Kind::Method | Kind::Getter | Kind::Setter => {
                !self.is_decorated() || self.body.is_some()
            }
            _ => true,
        }
    }

    /// Fields, accessors and others have no parameters.
    fn keeps_parameters(&self) -> bool
        ensures { result ≡ parameters_kept (outline (seen_parts self.now)) }
    {
        match self.kind {
            Kind::Field | Kind::Accessor | Kind::Other => self.parameters.as_slice().is_empty(),
            _ => true,
        }
    }

    /// Declare stands on undecorated public fields only.
    fn keeps_declare(&self) -> bool
        ensures { result ≡ declare_kept (outline (seen_parts self.now)) }
    {
        !self.flags.is_declared
            || (matches!(self.kind, Kind::Field) && !self.is_decorated() && !self.flags.is_private)
    }

    /// Async and generator stand on methods only.
    fn keeps_method(&self) -> bool
        ensures { result ≡ method_kept (outline (seen_parts self.now)) }
    {
        !(self.flags.is_async || self.flags.is_generator) || matches!(self.kind, Kind::Method)
    }

    /// A private key is an identifier.
    fn keeps_private(&self) -> bool
        ensures { result ≡ private_kept (outline (seen_parts self.now)) }
    {
        !self.flags.is_private || matches!(self.key.kind, KeyKind::Identifier)
    }

    /// Every rule but the setter's.
    pub(crate) fn is_lawful(&self) -> bool
        ensures { result ≡ lawful (outline (seen_parts self.now)) }
    {
        (self.keeps_bare() && self.keeps_body() && self.keeps_parameters())
            && (self.keeps_declare() && self.keeps_method() && self.keeps_private())
    }

    /// The first parameter of a decorated private setter is a plain identifier.
    pub(crate) fn is_settable(&self) -> bool
        ensures { result ≡ settable (outline (seen_parts self.now)) }
    {
        match self.kind {
            Kind::Setter if self.flags.is_private && self.is_decorated() => {
                matches!(self.parameters.as_slice(), [first, ..] if matches!(first.form, Form::Plain))
            }
            _ => true,
        }
    }
}
