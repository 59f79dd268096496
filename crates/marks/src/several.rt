//! Several draws at once.
ghost use Rattle.std.specs.Prelude.{◌≡◌, min, length, take, drop};
ghost use Rattle.marks.specs.Chains.{Several};
ghost use Rattle.marks.specs.Sizes.{size};
ghost use Rattle.marks.specs.Takes.{report, Takes};

use crate::source::{Exhausted, Marks};

/// Draws a mark for every place of `out`, in order. Where too few are free it draws them all, and says how many.
pub fn draw_into<S: Marks>(source: &mut S, out: &mut [u16]) -> Result<(), Exhausted>
    ensures answers { result ≡ report (length out.old) (size (S.free source.old)) }
    ensures takes { Takes (S.free source.old) (take (min (length out.old) (size (S.free source.old))) out.new) (S.free source.new) }
    ensures rest { drop (min (length out.old) (size (S.free source.old))) out.new
        ≡ drop (min (length out.old) (size (S.free source.old))) out.old }
    ensures steps { Several S.steps result (take (min (length out.old) (size (S.free source.old))) out.new) source.old source.new }
{
    for (drawn, slot) in out.iter_mut().enumerate() {
        *slot = source.draw().map_err(|_| Exhausted { drawn })?;
    }
    Ok(())
}
