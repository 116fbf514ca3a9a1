//! All sorts and operations that a type declares.

ghost use Rattle.lotos_base.specs.Name.{spelling};
ghost use Rattle.std.specs.Prelude.{MatchResult};
ghost use Rattle.type_presentations.specs.DeclarationMade.{IsDeclarationFault, IsDeclarationMade};
ghost use Rattle.type_presentations.specs.SectionView.{sections_of};
ghost use Rattle.type_presentations.specs.PresentationView.{
  IsSound,
  IsWithinLimits,
  presentation_of,
};

use crate::operations::declare_ops;
use crate::sections::SectionTexts;
use crate::sorts::declare_sorts;
use crate::{NamePositions, Presentation};
use lotos_base::Name;
use std::alloc::Global;
use type_definitions::TypeFault;

/// The presentation with the sorts and operations that the type of this name declares: formal
/// sorts, own sorts, formal operations, own operations, each in text order.
///
/// It is refused at the first declaration with a fault: `DoubleSort` at a second sort of a name;
/// for an operation `NoReading` at its name where an infix one does not have two arguments, then
/// `UnknownSort` at the first of its sorts that is none, then `DoubleOperation` at a second one of
/// its name, form and profile; `TooLarge` at the first sort or operation too many.
pub fn declare(
    alloc: Global,
    mut presentation: Presentation,
    type_name: &Name,
    sections: &SectionTexts<'_>,
) -> Result<Presentation, TypeFault>
    requires sound { IsSound presentation }
    requires within { IsWithinLimits presentation }
    ensures { MatchResult result
        (λ p. IsDeclarationMade (spelling type_name.now) (presentation_of presentation)
        (sections_of sections.now) p)
        (λ fault. IsDeclarationFault (spelling type_name.now) (presentation_of presentation)
        (sections_of sections.now) fault) }
{
    declare_all(alloc, &mut presentation, type_name, sections)?;
    Ok(presentation)
}

// Puts the sorts and operations that the type declares into the presentation.
fn declare_all(
    alloc: Global,
    presentation: &mut Presentation,
    type_name: &Name,
    sections: &SectionTexts<'_>,
) -> Result<(), TypeFault>
    requires sound { IsSound presentation.old }
    requires within { IsWithinLimits presentation.old }
    ensures { MatchResult result
        (λ _. IsDeclarationMade (spelling type_name.now) (presentation_of presentation.old)
        (sections_of sections.now) presentation.new)
        (λ fault. IsDeclarationFault (spelling type_name.now) (presentation_of presentation.old)
        (sections_of sections.now) fault) }
{
    declare_sorts(alloc, presentation, type_name, sections.formal_sorts, true)?;
    declare_sorts(alloc, presentation, type_name, sections.sorts, false)?;
    let sorts = NamePositions::of_sorts(alloc, presentation.sorts.sorts())?;
    declare_ops(
        alloc,
        presentation,
        &sorts,
        type_name,
        sections.formal_ops,
        true,
    )?;
    declare_ops(alloc, presentation, &sorts, type_name, sections.ops, false)?;
    Ok(())
}
