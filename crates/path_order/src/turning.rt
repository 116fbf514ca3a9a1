//! How one equation is turned.

ghost use Rattle.path_order.specs.PrecedenceView.{precedence_of};
ghost use Rattle.path_order.specs.TurnView.{IsComparedTurn};
ghost use Rattle.sort_terms.specs.SortedView.{term_in};
ghost use Rattle.std.specs.Prelude.{IfOk};

use crate::comparing::greater;
use crate::precedence::Precedence;
use lotos_base::NoMemory;
use sort_terms::Sorted;
use std::alloc::Global;

/// How an equation is turned into a rule.
#[derive(Clone, Copy, Debug, PartialEq, Eq)]
pub enum Turn {
    /// Not at all, since its sides are identical.
    Identical,
    /// From left to right.
    Forward,
    /// From right to left.
    Backward,
    /// Not at all, since its sides differ and neither is greater.
    Neither,
}

/// How an equation with these sides is turned.
pub fn turn_of(
    alloc: Global,
    precedence: &Precedence,
    left: &Sorted,
    right: &Sorted,
) -> Result<Turn, NoMemory>
    ensures { IfOk result (λ turn. IsComparedTurn (precedence_of precedence.now) (term_in left.now)
        (term_in right.now) turn) }
{
    if left.same(right) {
        return Ok(Turn::Identical);
    }
    if greater(alloc, precedence, left, right)? {
        return Ok(Turn::Forward);
    }
    if greater(alloc, precedence, right, left)? {
        return Ok(Turn::Backward);
    }
    Ok(Turn::Neither)
}
