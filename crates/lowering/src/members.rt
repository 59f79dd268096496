//! What the rules ask of a member.
ghost use Rattle.std.specs.Prelude.{◌≡◌, ◌&&◌, is_some};
ghost use Rattle.pieces.specs.declared.codes.Shape.{Shape};
ghost use Rattle.sheet.specs.Seen.{seen_parts};
ghost use Rattle.rules.specs.Members.{treatment, is_non_field, accessor, built, of_constructor, taken, taken_out, replaced, text_of};

use formats::Place;
use pieces::codes::{KeyKind, Kind, Shape};
use pieces::parts::{Body, Decorator};
use rules::Treatment;
use sheet::Parts;

/// What the walks do with the member.
#[tactic(auto, using(crate::proofs::Decorated::has_any))]
pub(crate) fn treatment_of(parts: &Parts) -> Treatment
    ensures { result ≡ treatment (seen_parts parts.now) }
{
    let decorated = parts.is_decorated();
    let private = parts.flags.is_private;
    match parts.kind {
        Kind::Field if decorated => Treatment::DecoratedField { private },
        Kind::Accessor if decorated => Treatment::DecoratedAccessor { private },
        Kind::Accessor => Treatment::Stored,
        Kind::Method | Kind::Getter | Kind::Setter if decorated => Treatment::DecoratedElement {
            private,
        },
        _ => Treatment::Untouched,
    }
}

pub(crate) fn is_accessor(parts: &Parts) -> bool
    ensures { result ≡ accessor (seen_parts parts.now) }
{
    matches!(parts.kind, Kind::Accessor)
}

pub(crate) fn is_constructor(parts: &Parts) -> bool
    ensures { result ≡ of_constructor (seen_parts parts.now).kind }
{
    matches!(parts.kind, Kind::Constructor)
}

/// Whether it is a constructor with a body.
pub(crate) fn is_built(parts: &Parts) -> bool
    ensures { result ≡ built (seen_parts parts.now) }
{
    is_constructor(parts) && parts.body.is_some()
}

/// Whether walk 1 takes the member.
pub(crate) fn is_taken(parts: &Parts) -> bool
    ensures { result ≡ taken (seen_parts parts.now) }
{
    match parts.kind {
        Kind::Field => !parts.flags.is_declared,
        Kind::Accessor => true,
        Kind::Method | Kind::Getter | Kind::Setter => parts.body.is_some(),
        Kind::Constructor | Kind::Other => false,
    }
}

/// Whether walk 1 takes the decorator out of a member, which it takes or not.
pub(crate) fn is_taken_out(walked: bool, decorator: Decorator) -> bool
    ensures { result ≡ taken_out walked decorator }
{
    walked && matches!(decorator.shape, Shape::Other)
}

/// Whether walk 1 replaces the member's key.
pub(crate) fn is_replaced(parts: &Parts) -> bool
    ensures { result ≡ replaced (seen_parts parts.now) }
{
    is_taken(parts)
        && !parts.flags.is_private
        && matches!(parts.key.kind, KeyKind::Literal | KeyKind::Computed)
}

/// The text of a value or of a function's body.
pub(crate) fn text_of(body: Option<Body>) -> Option<Place>
    ensures { result ≡ text_of body }
{
    match body {
        Some(Body::Text(place)) => Some(place),
        _ => None,
    }
}
