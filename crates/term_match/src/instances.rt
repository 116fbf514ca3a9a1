//! Instances of terms.

ghost use Rattle.sort_terms.specs.ProfiledTerm.{bare, head_sort};
ghost use Rattle.sort_terms.specs.SortedView.{profiled_in, term_in};
ghost use Rattle.sort_terms.specs.TermView.{all_profiled, profiled_of};
ghost use Rattle.std.specs.Prelude.{◌≡◌, ℕ, IfOk};
ghost use Rattle.lotos_base.specs.Sorting.{Occurs};
ghost use Rattle.lotos_base.specs.Substitution.{substituted};
ghost use Rattle.term_match.specs.ProfiledInstance.{
  profiled_binding,
  profiled_instance,
  profiled_instances,
};
ghost use Rattle.term_match.specs.SubstView.{
  profiled_pairs,
  profiled_substitution_of,
  substitution_of,
};

use crate::substitutions::Subst;
use lotos_base::NoMemory;
use sort_terms::{Sorted, Term};

/// The term with the terms of the substitution put for its variables. A variable whose number has
/// no pair stays.
pub fn apply(subst: &Subst, term: &Sorted) -> Result<Sorted, NoMemory>
    requires keeps_sorts { (n s : ℕ) → Occurs n s (term_in term.now)
        → head_sort (profiled_substitution_of subst.now n s) ≡ s }
    ensures instance { IfOk result
        (λ t. term_in t ≡ substituted (substitution_of subst.now) (term_in term.now)) }
    ensures profiles { IfOk result
        (λ t. profiled_in t
        ≡ profiled_instance (profiled_substitution_of subst.now) (profiled_in term.now)) }
    ensures sort { IfOk result (λ t. t.sort ≡ term.now.sort) }
{
    Ok(Sorted::of(instance(term.term(), subst.pairs())?))
}

// The term with the terms of the pairs put for its variables.
#[cycle(instance)]
fn instance(term: &Term, pairs: &[(u64, Sorted)]) -> Result<Term, NoMemory>
    ensures { IfOk result (λ t. profiled_of t
        ≡ profiled_instance (profiled_binding (profiled_pairs pairs.now)) (profiled_of term.now)) }
{
    match term {
        Term::Var { number, sort } => value_of(*number, *sort, pairs),
        Term::Node {
            op,
            profile,
            arguments,
        } => {
            let made = instances(arguments.items(), pairs)?;
            Term::node(*op, profile.clone()?, made)
        }
    }
}

// Each term of the list with the terms of the pairs put for its variables.
#[cycle(instance)]
fn instances(terms: &Vec<Term>, pairs: &[(u64, Sorted)]) -> Result<Vec<Term>, NoMemory>
    ensures { IfOk result (λ ts. all_profiled ts.items
        ≡ profiled_instances (profiled_binding (profiled_pairs pairs.now))
        (all_profiled terms.now.items)) }
{
    let mut made = Vec::with_capacity(*terms.allocator(), terms.len())?;
    for term in terms {
        made.push(instance(term, pairs)?)?;
    }
    Ok(made)
}

// What the pairs put for the variable with this number and sort.
fn value_of(number: u64, sort: u32, pairs: &[(u64, Sorted)]) -> Result<Term, NoMemory>
    ensures { IfOk result
        (λ t. profiled_of t ≡ profiled_binding (profiled_pairs pairs.now) number sort) }
{
    for (known, value) in pairs {
        if *known == number {
            return value.term().copy();
        }
    }
    Ok(Term::Var { number, sort })
}
