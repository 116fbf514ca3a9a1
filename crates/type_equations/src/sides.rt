//! The sides of an equation.

ghost use Rattle.type_equations.specs.ScopeFor.{IsScopeFor};
ghost use Rattle.sort_terms.specs.ProfiledTerm.{IsOf};
ghost use Rattle.sort_terms.specs.ReaderView.{signature_read};
ghost use Rattle.sort_terms.specs.SortedView.{profiled_in, term_in};
ghost use Rattle.std.specs.Prelude.{◌≡◌, MatchResult};
ghost use Rattle.syntax_trees.specs.TreeViews.{written_equation_of};
ghost use Rattle.type_definitions.specs.FaultView.{HoldsOfFault};
ghost use Rattle.type_definitions.specs.DeclaredEquations.{AskedEquation, IsFaultOfSides, IsSide};
ghost use Rattle.type_definitions.specs.Presentation.{Presentation as PlainPresentation};

use crate::equation_scope::EquationScope;
use sort_terms::{Reader, Sorted};
use syntax_trees::EqText;
use type_definitions::TypeFault;

/// The one reading of each side at the sort of the group; the left side is refused before the right
/// one.
pub fn read_sides(
    reader: &Reader<'_>,
    scope: &EquationScope<'_>,
    equation: &EqText,
) -> Result<(Sorted, Sorted), TypeFault>
    requires { (p : PlainPresentation) × (asked : AskedEquation)
        × (p.signature ≡ signature_read reader.now)
        × IsScopeFor p asked.variables asked.sort scope.now }
    ensures { (p : PlainPresentation) (asked : AskedEquation)
        → p.signature ≡ signature_read reader.now
        → IsScopeFor p asked.variables asked.sort scope.now
        → asked.equation ≡ written_equation_of equation.now → MatchResult result
        (λ sides. IsSide p asked asked.equation.left (term_in sides.0)
        × IsSide p asked asked.equation.right (term_in sides.1)
        × IsOf p.signature (profiled_in sides.0) × IsOf p.signature (profiled_in sides.1)
        × (sides.0.sort ≡ scope.now.sort) × (sides.1.sort ≡ scope.now.sort))
        (λ fault. HoldsOfFault fault (IsFaultOfSides p asked)) }
{
    let left = reader.read_in(scope.scope, &equation.left, Some(scope.sort))?;
    let right = reader.read_in(scope.scope, &equation.right, Some(scope.sort))?;
    Ok((left, right))
}
