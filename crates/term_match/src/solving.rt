//! Steps of unification: a variable is bound, and its term is put for it everywhere.

ghost use Rattle.sort_terms.specs.SortedView.{profiled_in, term_in};
ghost use Rattle.std.specs.Prelude.{◌≡◌, ℕ, IfOk, Some, slice_get};
ghost use Rattle.term_match.specs.ProfiledInstance.{profiled_instance};
ghost use Rattle.term_match.specs.SubstView.{profiled_pairs, profiled_substitution_of};
ghost use Rattle.term_match.specs.Disagreement.{disagreement};
ghost use Rattle.term_match.specs.Solving.{asked, bound_pairs, instances_of_pairs, one_binding};
ghost use Rattle.term_match.specs.Solving.{HasOneSortAt, IsPutSorted};
ghost use Rattle.term_match.specs.DemandView.{demand_of};

use crate::differences::{Difference, differ};
use crate::{Subst, apply};
use lotos_base::NoMemory;
use sort_terms::Sorted;
use std::alloc::Global;

/// What the first difference of two terms asks for.
#[derive(Debug, Drop)]
pub enum Demanded {
    /// Nothing: the terms do not differ.
    Solved,
    /// No substitution makes the terms one.
    Failed,
    /// The term is to be put for the variable with this number.
    Bind(u64, Sorted),
}

/// What the first difference of the two terms asks for. A variable and a term of another sort fail.
pub fn demanded_by(left: &Sorted, right: &Sorted) -> Result<Demanded, NoMemory>
    ensures { IfOk result (λ next. demand_of next
        ≡ asked (disagreement (profiled_in left.now) (profiled_in right.now))) }
{
    match differ(left.term(), right.term()) {
        Difference::Alike => Ok(Demanded::Solved),
        Difference::Clash => Ok(Demanded::Failed),
        Difference::Bound {
            number,
            sort,
            value,
        } => {
            if value.sort() != sort {
                return Ok(Demanded::Failed);
            }
            Ok(Demanded::Bind(number, Sorted::of(value.copy()?)))
        }
    }
}

/// Two terms in which the terms of the pairs stand for the variables that have a pair.
#[derive(Debug, Drop)]
pub struct Solving {
    /// The first term.
    pub left: Sorted,
    /// The second term.
    pub right: Sorted,
    /// The variables that have a term, and their terms.
    pub pairs: Vec<(u64, Sorted)>,
}

/// The value put for the variable with the number everywhere, and its pair added.
pub fn with_value(
    alloc: Global,
    state: &Solving,
    number: u64,
    value: Sorted,
) -> Result<Solving, NoMemory>
    requires left { HasOneSortAt number value.sort (term_in state.now.left) }
    requires right { HasOneSortAt number value.sort (term_in state.now.right) }
    requires pairs { (i : ℕ) (pair : ℕ × Sorted)
        → slice_get state.now.pairs.items i ≡ Some pair
        → HasOneSortAt number value.sort (term_in pair.1) }
    ensures left { IfOk result (λ s. profiled_in s.left
        ≡ profiled_instance (one_binding number (profiled_in value)) (profiled_in state.now.left)) }
    ensures right { IfOk result (λ s. profiled_in s.right
        ≡ profiled_instance (one_binding number (profiled_in value)) (profiled_in state.now.right)) }
    ensures pairs { IfOk result (λ s. profiled_pairs s.pairs.items
        ≡ bound_pairs number (profiled_in value) (profiled_pairs state.now.pairs.items)) }
{
    let one = Subst::of(vec![in alloc; (number, value.copy()?)]?);
    let left = apply(&one, &state.left)?;
    let right = apply(&one, &state.right)?;
    let mut pairs = instances(alloc, &one, state.pairs.as_slice())?;
    pairs.push((number, value))?;
    Ok(Solving { left, right, pairs })
}

// The pairs with the substitution put into their terms.
fn instances(
    alloc: Global,
    one: &Subst,
    pairs: &[(u64, Sorted)],
) -> Result<Vec<(u64, Sorted)>, NoMemory>
    requires { (i : ℕ) (pair : ℕ × Sorted) → slice_get pairs.now i ≡ Some pair
        → IsPutSorted (profiled_substitution_of one.now) (term_in pair.1) }
    ensures { IfOk result (λ made. profiled_pairs made.items
        ≡ instances_of_pairs (profiled_substitution_of one.now) (profiled_pairs pairs.now)) }
{
    let mut made = Vec::with_capacity(alloc, pairs.len())?;
    for (number, value) in pairs {
        made.push((*number, apply(one, value)?))?;
    }
    Ok(made)
}
