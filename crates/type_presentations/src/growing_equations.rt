//! One more equation.

ghost use Rattle.sort_terms.specs.EquationView.{equation_of};
ghost use Rattle.sort_terms.specs.ProfiledTerm.{IsOf};
ghost use Rattle.sort_terms.specs.SortedView.{profiled_in};
ghost use Rattle.std.specs.Prelude.{◌≡◌, OnOk};
ghost use Rattle.lotos_base.specs.Equation.{IsEquationOver};
ghost use Rattle.type_definitions.specs.DeclaredEquations.{with_equation};
ghost use Rattle.type_presentations.specs.PresentationView.{IsSound, presentation_of};

use crate::Presentation;
use lotos_base::NoMemory;
use sort_terms::Equation;
use std::alloc::Global;

/// Puts an equation over the signature of the presentation at the end.
pub fn grow_by_equation(
    alloc: Global,
    presentation: &mut Presentation,
    equation: Equation,
) -> Result<(), NoMemory>
    requires sound { IsSound presentation.old }
    requires over { IsEquationOver (presentation_of presentation.old).signature
        (equation_of equation) }
    requires left { IsOf (presentation_of presentation.old).signature (profiled_in equation.left) }
    requires right { IsOf (presentation_of presentation.old).signature
        (profiled_in equation.right) }
    ensures grown { OnOk result (presentation_of presentation.new
        ≡ with_equation (presentation_of presentation.old) (equation_of equation)) }
    ensures sound { OnOk result (IsSound presentation.new) }
{
    presentation.equations.append(alloc, equation)?;
    Ok(())
}
