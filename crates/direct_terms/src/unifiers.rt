//! What unification and matching make of two terms.

ghost use Rattle.lotos_base.specs.Sorting.{Occurs};
ghost use Rattle.sort_terms.specs.ProfiledTerm.{head_sort};
ghost use Rattle.sort_terms.specs.SortedView.{term_in};
ghost use Rattle.std.specs.Prelude.{◌≡◌, ℕ};
ghost use Rattle.term_match.specs.SubstView.{profiled_substitution_of};
ghost use Rattle.term_match.specs.Unified.{HaveOneSortPerNumber};

use lotos_base::NoMemory;
use sort_terms::Sorted;
use std::alloc::Global;
use term_match::{Subst, apply, by_appearance, matches, renumbered, unify};

/// The instance of both terms by their most general unifier, its variables numbered by first
/// appearance, if they have one.
pub fn unified(alloc: Global, left: &Sorted, right: &Sorted) -> Result<Option<Sorted>, NoMemory>
    requires { HaveOneSortPerNumber (term_in left.now) (term_in right.now) }
{
    match unify(alloc, left, right)? {
        Some(subst) => instance(alloc, &subst, left, right),
        None => Ok(None),
    }
}

// The one instance of both terms by the substitution, its variables numbered anew.
fn instance(
    alloc: Global,
    subst: &Subst,
    left: &Sorted,
    right: &Sorted,
) -> Result<Option<Sorted>, NoMemory>
    requires left { (n s : ℕ) → Occurs n s (term_in left.now)
        → head_sort (profiled_substitution_of subst.now n s) ≡ s }
    requires right { (n s : ℕ) → Occurs n s (term_in right.now)
        → head_sort (profiled_substitution_of subst.now n s) ≡ s }
{
    let one = apply(subst, left)?;
    if_instance(alloc, subst, right, &one)
}

// The instance with its variables numbered anew, if it is that of the term.
fn if_instance(
    alloc: Global,
    subst: &Subst,
    term: &Sorted,
    one: &Sorted,
) -> Result<Option<Sorted>, NoMemory>
    requires { (n s : ℕ) → Occurs n s (term_in term.now)
        → head_sort (profiled_substitution_of subst.now n s) ≡ s }
{
    let other = apply(subst, term)?;
    if one.same(&other) {
        numbered(alloc, one)
    } else {
        Ok(None)
    }
}

// The term with its variables numbered by first appearance.
fn numbered(alloc: Global, term: &Sorted) -> Result<Option<Sorted>, NoMemory> {
    let numbers = by_appearance(alloc, term.term())?;
    Ok(Some(renumbered(term, numbers.as_slice())?))
}

/// What makes the pattern the term, if something does.
pub fn matched(alloc: Global, pattern: &Sorted, term: &Sorted) -> Result<Option<Subst>, NoMemory>
    requires { HaveOneSortPerNumber (term_in pattern.now) (term_in term.now) }
{
    matches(alloc, pattern, term)
}
