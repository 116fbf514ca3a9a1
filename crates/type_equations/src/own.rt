//! The equations of the type's own.

ghost use Rattle.type_equations.specs.ScopeFor.{IsScopeFor};
ghost use Rattle.lotos_base.specs.Name.{spelling};
ghost use Rattle.type_equations.specs.SectionScope.{IsSectionFor};
ghost use Rattle.sort_terms.specs.ReaderView.{signature_read};
ghost use Rattle.std.specs.Prelude.{◌≡◌, false, List, MatchResult, OnOk};
ghost use Rattle.syntax_trees.specs.TreeViews.{written_equation_of, equations_of, group_of};
ghost use Rattle.syntax_trees.specs.WrittenVariable.{WrittenVariable};
ghost use Rattle.type_definitions.specs.FaultView.{HoldsOfFault};
ghost use Rattle.type_definitions.specs.DeclaredEquations.{
  AskedEquation,
  GiveAll,
  GivesPresentation,
  QuestionHasFault,
  HasFirstFault,
  asked_of_group,
  asked_of_section,
  own_asked,
};
ghost use Rattle.type_presentations.specs.PresentationView.{
  IsSound,
  IsWithinLimits,
  presentation_of,
};

use crate::equation_scope::Section;
use crate::section_sides::add_sides;
use crate::sorts::add_variables;
use crate::{EquationScope, read_sides};
use lotos_base::Name;
use sort_terms::Reader;
use std::alloc::Global;
use syntax_trees::{EqText, EqnsText, GroupText};
use type_definitions::TypeFault;
use type_presentations::Presentation;

/// Adds the equations of a section, in text order: the sorts of its variables are looked at, then
/// its groups, each with its sort, its variables and its equations. An equation with premisses is
/// refused at its `=>`; then where a side has not one reading, the left side first; then where it
/// is one too many, at its place with the name of the type.
pub fn add_section(
    alloc: Global,
    reader: &Reader<'_>,
    presentation: &mut Presentation,
    type_name: &Name,
    section: &EqnsText,
) -> Result<(), TypeFault>
    requires sound { IsSound presentation.old }
    requires within { IsWithinLimits presentation.old }
    requires same { (presentation_of presentation.old).signature ≡ signature_read reader.now }
    ensures given { MatchResult result (λ _. GiveAll (presentation_of presentation.old)
        (asked_of_section false (equations_of section.now)) (presentation_of presentation.new))
        (λ fault. HoldsOfFault fault (HasFirstFault (spelling type_name.now)
        (presentation_of presentation.old) (asked_of_section false (equations_of section.now)))) }
    ensures sound { OnOk result (IsSound presentation.new) }
    ensures within { OnOk result (IsWithinLimits presentation.new) }
{
    let mut variables = Vec::new(alloc);
    add_variables(alloc, reader, &mut variables, section.variables.as_slice())?;
    let shared = Section::of(alloc, variables)?;
    for group in &section.groups {
        add_group(alloc, reader, presentation, type_name, &shared, group)?;
    }
    Ok(())
}

// Adds the equations of a group.
fn add_group(
    alloc: Global,
    reader: &Reader<'_>,
    presentation: &mut Presentation,
    type_name: &Name,
    section: &Section,
    group: &GroupText,
) -> Result<(), TypeFault>
    requires sound { IsSound presentation.old }
    requires within { IsWithinLimits presentation.old }
    requires section { (written : List WrittenVariable)
        × IsSectionFor (presentation_of presentation.old) written (signature_read reader.now)
        section.now.variables.items }
    ensures given { (written : List WrittenVariable)
        → IsSectionFor (presentation_of presentation.old) written (signature_read reader.now)
        section.now.variables.items → MatchResult result
        (λ _. GiveAll (presentation_of presentation.old)
        (asked_of_group false written (group_of group.now)) (presentation_of presentation.new))
        (λ fault. HoldsOfFault fault (HasFirstFault (spelling type_name.now)
        (presentation_of presentation.old) (asked_of_group false written (group_of group.now)))) }
    ensures sound { OnOk result (IsSound presentation.new) }
    ensures within { OnOk result (IsWithinLimits presentation.new) }
{
    let mut room = Section::new(alloc);
    let scope = EquationScope::of_group(alloc, reader, section, &mut room, group)?;
    for equation in &group.equations {
        add_equation(alloc, reader, presentation, type_name, &scope, equation)?;
    }
    Ok(())
}

// Adds an equation. It may have no premisses.
fn add_equation(
    alloc: Global,
    reader: &Reader<'_>,
    presentation: &mut Presentation,
    type_name: &Name,
    scope: &EquationScope<'_>,
    equation: &EqText,
) -> Result<(), TypeFault>
    requires sound { IsSound presentation.old }
    requires same { (presentation_of presentation.old).signature ≡ signature_read reader.now }
    requires scoped { (asked : AskedEquation)
        × IsScopeFor (presentation_of presentation.old) asked.variables asked.sort scope.now
        × (asked.equation ≡ written_equation_of equation.now) }
    ensures given { (asked : AskedEquation)
        → IsScopeFor (presentation_of presentation.old) asked.variables asked.sort scope.now
        → asked.equation ≡ written_equation_of equation.now → MatchResult result
        (λ _. GivesPresentation (presentation_of presentation.old) (own_asked asked)
        (presentation_of presentation.new))
        (λ fault. HoldsOfFault fault (QuestionHasFault (presentation_of presentation.old)
        (spelling type_name.now) (own_asked asked))) }
    ensures sound { OnOk result (IsSound presentation.new) }
    ensures within { OnOk result (IsWithinLimits presentation.new) }
{
    if let Some(arrow) = equation.arrow {
        return Err(TypeFault::Premised { place: arrow });
    }
    let (left, right) = read_sides(reader, scope, equation)?;
    add_sides(alloc, presentation, scope, equation.place, &left, &right)?;
    let is_too_large = presentation.is_too_large();
    if is_too_large {
        return Err(TypeFault::TooLarge {
            place: equation.place,
            name: type_name.copy(alloc)?,
        });
    }
    Ok(())
}
