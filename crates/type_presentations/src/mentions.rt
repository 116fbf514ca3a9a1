//! The union of all that a type mentions.

ghost use Rattle.type_presentations.specs.MentionView.{AreSoundMentions, mentions_of};
ghost use Rattle.type_presentations.specs.UnionMade.{IsUnionFault, IsUnited};
ghost use Rattle.std.specs.Prelude.{◌≡◌, MatchResult};
ghost use Rattle.type_definitions.specs.Presentation.{nothing};
ghost use Rattle.type_presentations.specs.PresentationView.{
  IsSound,
  IsWithinLimits,
  presentation_of,
};

use crate::Presentation;
use crate::unions::join;
use lotos_base::{Name, Place};
use std::alloc::Global;
use type_definitions::TypeFault;

/// A name that stands at a place, and the presentation of the type of this name.
#[derive(Clone, Copy)]
pub struct Mention<'a> {
    /// The place.
    pub place: Place,
    /// The name as it is spelled there.
    pub name: &'a Name,
    /// The presentation.
    pub presentation: &'a Presentation,
}

/// The union of the presentations that are mentioned, from left to right, each sort, operation and
/// equation once, where it first appears. It is refused at the first mention whose presentation
/// brings a second sort of a name, a second operation of a name, form and profile, or more than
/// 65,536 sorts, operations or equations.
pub fn union_of_mentions(alloc: Global, mentions: &[Mention<'_>]) -> Result<Presentation, TypeFault>
    requires { AreSoundMentions mentions.now }
    ensures { MatchResult result (λ p. IsUnited (mentions_of mentions.now) p)
        (λ fault. IsUnionFault (mentions_of mentions.now) fault) }
{
    let mut union = Presentation::new(alloc);
    join_all(alloc, &mut union, mentions)?;
    Ok(union)
}

// Joins the presentations that are mentioned to one that has nothing.
fn join_all(
    alloc: Global,
    union: &mut Presentation,
    mentions: &[Mention<'_>],
) -> Result<(), TypeFault>
    requires sound { IsSound union.old }
    requires within { IsWithinLimits union.old }
    requires nothing_there { presentation_of union.old ≡ nothing }
    requires mentioned { AreSoundMentions mentions.now }
    ensures { MatchResult result (λ _. IsUnited (mentions_of mentions.now) union.new)
        (λ fault. IsUnionFault (mentions_of mentions.now) fault) }
{
    for mention in mentions {
        join(alloc, union, mention)?;
    }
    Ok(())
}
