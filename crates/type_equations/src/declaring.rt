//! All equations that a type declares.

ghost use Rattle.lotos_base.specs.Name.{spelling};
ghost use Rattle.sort_terms.specs.ReaderView.{signature_read};
ghost use Rattle.sort_terms.specs.SignatureView.{signature_of};
ghost use Rattle.std.specs.Prelude.{◌≡◌, MatchResult, OnOk};
ghost use Rattle.type_presentations.specs.SectionView.{sections_of};
ghost use Rattle.type_definitions.specs.FaultView.{HoldsOfFault};
ghost use Rattle.type_definitions.specs.DeclaredEquations.{GiveAll, HasFirstFault};
ghost use Rattle.type_definitions.specs.Extension.{asked_of};
ghost use Rattle.type_presentations.specs.PresentationView.{
  IsSound,
  IsWithinLimits,
  presentation_of,
};

use crate::signatures::signature_copy;
use crate::{add_section, check_section, sort_with_truth};
use lotos_base::Name;
use sort_terms::{Reader, Signature};
use std::alloc::Global;
use type_definitions::TypeFault;
use type_presentations::{Presentation, SectionTexts};

/// The presentation with the equations that the type of this name declares. Formal equations are
/// checked first, and are no part of it.
///
/// In text order, a name of no sort in `forall` or `ofsort` is `UnknownSort` at it. For an equation
/// of the type's own, premisses are `Premised` at the `=>`; then a side without one reading is
/// refused as a term, the left one before the right one, and for a formal equation its premisses
/// after them; then the first equation too many is `TooLarge` at its place.
pub fn declare_equations(
    alloc: Global,
    mut presentation: Presentation,
    type_name: &Name,
    sections: &SectionTexts<'_>,
) -> Result<Presentation, TypeFault>
    requires sound { IsSound presentation }
    requires within { IsWithinLimits presentation }
    ensures { MatchResult result
        (λ p. GiveAll (presentation_of presentation) (asked_of (sections_of sections.now))
        (presentation_of p) × IsSound p × IsWithinLimits p)
        (λ fault. HoldsOfFault fault (HasFirstFault (spelling type_name.now)
        (presentation_of presentation) (asked_of (sections_of sections.now)))) }
{
    give_equations(alloc, &mut presentation, type_name, sections)?;
    Ok(presentation)
}

// Adds the equations.
fn give_equations(
    alloc: Global,
    presentation: &mut Presentation,
    type_name: &Name,
    sections: &SectionTexts<'_>,
) -> Result<(), TypeFault>
    requires sound { IsSound presentation.old }
    requires within { IsWithinLimits presentation.old }
    ensures given { MatchResult result (λ _. GiveAll (presentation_of presentation.old)
        (asked_of (sections_of sections.now)) (presentation_of presentation.new))
        (λ fault. HoldsOfFault fault (HasFirstFault (spelling type_name.now)
        (presentation_of presentation.old) (asked_of (sections_of sections.now)))) }
    ensures sound { OnOk result (IsSound presentation.new) }
    ensures within { OnOk result (IsWithinLimits presentation.new) }
{
    let signature = signature_copy(alloc, presentation)?;
    give_over(alloc, &signature, presentation, type_name, sections)
}

// Adds the equations, which are read over the signature.
fn give_over(
    alloc: Global,
    signature: &Signature,
    presentation: &mut Presentation,
    type_name: &Name,
    sections: &SectionTexts<'_>,
) -> Result<(), TypeFault>
    requires sound { IsSound presentation.old }
    requires within { IsWithinLimits presentation.old }
    requires same { (presentation_of presentation.old).signature ≡ signature_of signature.now }
    ensures given { MatchResult result (λ _. GiveAll (presentation_of presentation.old)
        (asked_of (sections_of sections.now)) (presentation_of presentation.new))
        (λ fault. HoldsOfFault fault (HasFirstFault (spelling type_name.now)
        (presentation_of presentation.old) (asked_of (sections_of sections.now)))) }
    ensures sound { OnOk result (IsSound presentation.new) }
    ensures within { OnOk result (IsWithinLimits presentation.new) }
{
    let reader = Reader::of(alloc, signature)?;
    give_by_reader(alloc, &reader, presentation, type_name, sections)
}

// Adds the equations, which are read by the reader: the formal ones are checked first.
fn give_by_reader(
    alloc: Global,
    reader: &Reader<'_>,
    presentation: &mut Presentation,
    type_name: &Name,
    sections: &SectionTexts<'_>,
) -> Result<(), TypeFault>
    requires sound { IsSound presentation.old }
    requires within { IsWithinLimits presentation.old }
    requires same { (presentation_of presentation.old).signature ≡ signature_read reader.now }
    ensures given { MatchResult result (λ _. GiveAll (presentation_of presentation.old)
        (asked_of (sections_of sections.now)) (presentation_of presentation.new))
        (λ fault. HoldsOfFault fault (HasFirstFault (spelling type_name.now)
        (presentation_of presentation.old) (asked_of (sections_of sections.now)))) }
    ensures sound { OnOk result (IsSound presentation.new) }
    ensures within { OnOk result (IsWithinLimits presentation.new) }
{
    let truth = sort_with_truth(alloc, reader, presentation.ops.ops())?;
    check_section(alloc, reader, truth, sections.formal_equations)?;
    add_section(alloc, reader, presentation, type_name, sections.equations)?;
    Ok(())
}
