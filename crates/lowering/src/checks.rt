//! What is checked of the members in hand before marks are drawn.
ghost use Rattle.std.specs.Prelude.{◌≡◌, ◌+◌, count_by, OnOk};
ghost use Rattle.sheet.specs.Seen.{seen_parts};
ghost use Rattle.rules.specs.Members.{accessor};
ghost use Rattle.rules.specs.Refused.{head_misplaced, out_of_order};
ghost use Rattle.lowering.specs.Checks.{constructors_in, numbers_in};
ghost use Rattle.lowering.specs.Hands.{seen_hand};

use crate::faults::ClassFault;
use crate::members::{is_accessor, is_built};
use crate::numbers::Numbers;
use pieces::parts::Body;
use rules::Held;
use sheet::Parts;

/// Whether a constructor has a head in a class that is not derived, or none in one that is.
fn is_head_misplaced(body: Option<Body>, derived: bool) -> bool
    ensures { result ≡ head_misplaced derived body }
{
    match body {
        Some(Body::Constructor { head, .. }) => derived == (head.length == 0),
        _ => false,
    }
}

/// Whether it is a constructor with a body that is out of order; `second` if one came before it.
fn is_out_of_order(parts: &Parts, derived: bool, second: bool) -> bool
    ensures { result ≡ out_of_order derived second (seen_parts parts.now) }
{
    is_built(parts) && (second || is_head_misplaced(parts.body, derived))
}

/// Refuses the first constructor with a body that is out of order.
pub(crate) fn check_constructors(hand: &[Held], derived: bool) -> Result<(), ClassFault>
    ensures { result ≡ constructors_in derived (seen_hand hand.now) }
{
    let mut second = false;
    for (member, held) in hand.iter().enumerate() {
        let parts = held.member.parts();
        if is_out_of_order(parts, derived, second) {
            return Err(ClassFault::Constructor { member });
        }
        second = second || is_built(parts);
    }
    Ok(())
}

/// Gives each accessor the next storage number, and refuses the first for which there is none.
pub(crate) fn number_accessors(hand: &[Held], numbers: &mut Numbers) -> Result<(), ClassFault>
    ensures is { result ≡ numbers_in numbers.old.storage (seen_hand hand.now) }
    ensures storage { OnOk result (numbers.new.storage ≡ numbers.old.storage + count_by accessor (seen_hand hand.now)) }
{
    for (member, held) in hand.iter().enumerate() {
        if is_accessor(held.member.parts()) {
            if numbers.storage == u16::MAX {
                return Err(ClassFault::StorageNumber { member });
            }
            numbers.storage += 1;
        }
    }
    Ok(())
}
