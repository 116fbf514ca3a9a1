//! Equations of two sides that were read.

ghost use Rattle.type_equations.specs.ScopeFor.{IsScopeFor};
ghost use Rattle.lotos_base.specs.WrittenView.{text_place_of};
ghost use Rattle.type_equations.specs.SectionScope.{AreSides};
ghost use Rattle.sort_terms.specs.SortedView.{term_in};
ghost use Rattle.std.specs.Prelude.{◌≡◌, OnOk};
ghost use Rattle.type_definitions.specs.DeclaredEquations.{AskedEquation, with_sides};
ghost use Rattle.type_presentations.specs.PresentationView.{IsSound, presentation_of};

use crate::{EquationScope, equation_made};
use lotos_base::{NoMemory, Place};
use sort_terms::Sorted;
use std::alloc::Global;
use type_presentations::{Presentation, grow_by_equation};

/// Puts the equation of two sides that were read in the scope at the end.
pub fn add_sides(
    alloc: Global,
    presentation: &mut Presentation,
    scope: &EquationScope<'_>,
    place: Place,
    left: &Sorted,
    right: &Sorted,
) -> Result<(), NoMemory>
    requires sound { IsSound presentation.old }
    requires read { (asked : AskedEquation)
        × IsScopeFor (presentation_of presentation.old) asked.variables asked.sort scope.now
        × AreSides (presentation_of presentation.old) asked left.now right.now }
    ensures grown { OnOk result ((asked : AskedEquation)
        → IsScopeFor (presentation_of presentation.old) asked.variables asked.sort scope.now
        → asked.equation.place ≡ text_place_of place → presentation_of presentation.new
        ≡ with_sides (presentation_of presentation.old) asked (term_in left.now)
        (term_in right.now)) }
    ensures sound { OnOk result (IsSound presentation.new) }
    ensures same { OnOk result ((presentation_of presentation.new).signature
        ≡ (presentation_of presentation.old).signature) }
{
    let made = equation_made(alloc, place, scope.variables, left, right)?;
    grow_by_equation(alloc, presentation, made)?;
    Ok(())
}
