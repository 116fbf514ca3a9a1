//! Equations of two sides.

ghost use Rattle.lotos_base.specs.WrittenView.{text_place_of};
ghost use Rattle.sort_terms.specs.EquationView.{equation_of, variable_of};
ghost use Rattle.sort_terms.specs.ProfiledTerm.{IsOf};
ghost use Rattle.sort_terms.specs.SortedView.{profiled_in, term_in};
ghost use Rattle.std.specs.Prelude.{◌≡◌, IfOk, map};
ghost use Rattle.lotos_base.specs.Signature.{Signature};
ghost use Rattle.type_definitions.specs.DeclaredEquations.{equation_of_sides};

use crate::collecting::collect;
use crate::making::declared;
use crate::numbering::renumbered_side;
use indexmap::IndexSet;
use lotos_base::{NoMemory, Place};
use sort_terms::{Equation, Sorted, Variable};
use std::alloc::Global;

/// The equation of two sides that were read in this scope, at its place. Its variables are those
/// that occur, numbered from 0 by first appearance, left side first.
pub fn equation_made(
    alloc: Global,
    place: Place,
    scope: &[Variable],
    left: &Sorted,
    right: &Sorted,
) -> Result<Equation, NoMemory>
    ensures made { IfOk result (λ e. equation_of e
        ≡ equation_of_sides (text_place_of place) (map variable_of scope.now) (term_in left.now)
        (term_in right.now)) }
    ensures left { IfOk result (λ e. (signature : Signature) → IsOf signature (profiled_in left.now)
        → IsOf signature (profiled_in e.left)) }
    ensures right { IfOk result (λ e. (signature : Signature)
        → IsOf signature (profiled_in right.now) → IsOf signature (profiled_in e.right)) }
{
    let mut order = IndexSet::new(alloc);
    collect(left.term(), &mut order)?;
    collect(right.term(), &mut order)?;
    let variables = declared(alloc, scope, &order)?;
    let one = renumbered_side(left, &order)?;
    let other = renumbered_side(right, &order)?;
    Ok(Equation {
        place,
        variables,
        left: one,
        right: other,
    })
}
