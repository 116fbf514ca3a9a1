//! Matching (Baader and Nipkow, 4.7).

ghost use Rattle.sort_terms.specs.ProfiledTerm.{FitsProfiles, ProfiledTerm};
ghost use Rattle.sort_terms.specs.SortedView.{profiled_in, term_in};
ghost use Rattle.std.specs.Prelude.{◌≡◌, ◌↔◌, ℕ, IfOk, IfSome, None};
ghost use Rattle.term_match.specs.FoundView.{found_pairs};
ghost use Rattle.term_match.specs.Matched.{HasMatch, TermHasOneSortPerNumber, IsMatchedBy, IsPair};
ghost use Rattle.term_match.specs.SubstView.{profiled_pairs};

use crate::bindings::search;
use crate::substitutions::Subst;
use lotos_base::NoMemory;
use sort_terms::{Sorted, Term};
use std::alloc::Global;

/// The substitution of the pattern's variables that makes the pattern the term, or `None` exactly
/// where there is none. Terms of different sorts do not match. A variable that occurs more than
/// once has to stand for one term.
pub fn matches(alloc: Global, pattern: &Sorted, term: &Sorted) -> Result<Option<Subst>, NoMemory>
    requires one_sort { TermHasOneSortPerNumber (term_in pattern.now) }
    ensures none { IfOk result (λ o. (o ≡ None)
        ↔ (¬ HasMatch (profiled_in pattern.now) (profiled_in term.now))) }
    ensures some { IfOk result (λ o. IfSome o
        (λ subst. IsMatchedBy (profiled_in pattern.now) (profiled_in term.now)
        (profiled_pairs subst.pairs.items))) }
{
    if pattern.sort() != term.sort() {
        return Ok(None);
    }
    match search(pattern.term(), term.term(), Vec::new(alloc))? {
        Some(found) => Ok(Some(Subst::of(copies(alloc, found.as_slice())?))),
        None => Ok(None),
    }
}

// The pairs with copies of their terms.
fn copies(alloc: Global, found: &[(u64, &Term)]) -> Result<Vec<(u64, Sorted)>, NoMemory>
    requires { (n : ℕ) (u : ProfiledTerm)
        → IsPair (found_pairs found.now) n u → FitsProfiles u }
    ensures { IfOk result
        (λ pairs. profiled_pairs pairs.items ≡ found_pairs found.now) }
{
    let mut made = Vec::with_capacity(alloc, found.len())?;
    for (number, value) in found {
        made.push((*number, Sorted::of(value.copy()?)))?;
    }
    Ok(made)
}
