//! How a member is made, and what it shows.
ghost use Rattle.std.specs.Prelude.{◌≡◌, true};
ghost use Rattle.sheet.specs.Rules.{fits};
ghost use Rattle.sheet.specs.Seen.{seen_parts};
ghost use Rattle.sheet.specs.Members.{ruled, seen_member, made_in};

use super::Member;
use crate::parts::Parts;
use crate::refusal::MemberFault;

impl Member {
    /// The member at `at` of the sheet, of these parts, unless they break a rule.
    pub(crate) fn new(parts: Parts, at: usize) -> Result<Member, MemberFault>
        requires { fits parts.kind parts.body ≡ true }
        ensures { made_in result ≡ ruled (seen_parts parts) at }
    {
        if !parts.is_lawful() {
            return Err(MemberFault::BrokenRule { at });
        }
        if !parts.is_settable() {
            return Err(MemberFault::SetterParameter { at });
        }
        Ok(Member { parts })
    }

    /// What the member consists of.
    pub fn parts(&self) -> &Parts
        ensures { seen_parts result.now ≡ seen_member self.now }
    {
        &self.parts
    }
}
