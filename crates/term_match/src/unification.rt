//! Unification (Baader and Nipkow, 4.5).

ghost use Rattle.sort_terms.specs.ProfiledTerm.{IsOf};
ghost use Rattle.sort_terms.specs.SortedView.{profiled_in, term_in};
ghost use Rattle.std.specs.Prelude.{◌≡◌, ◌↔◌, IfNone, IfOk, IfSome, None};
ghost use Rattle.lotos_base.specs.Signature.{Signature};
ghost use Rattle.term_match.specs.SubstView.{profiled_pairs};
ghost use Rattle.term_match.specs.Unified.{HasSortedUnifier, HasUnifier, HaveOneSortPerNumber, IsUnifiedBy};

use crate::Subst;
use crate::differences::clash;
use crate::solving::{Demanded, Solving, demanded_by, with_value};
use lotos_base::NoMemory;
use sort_terms::Sorted;
use std::alloc::Global;

/// A most general unifier of the two terms, or `None` exactly where they have none. Terms of
/// different sorts have none, since a substitution puts terms of a variable's sort.
///
/// The answer has for each of its variables the whole term, so it can be large: `f(x1, .., xn)` and
/// `f(g(x0, x0), .., g(x(n-1), x(n-1)))` have an answer with 2^n places for `xn`. The time goes by
/// the number of variables times the size of the answer. Two operations that clash at a place are
/// seen before any memory is taken.
pub fn unify(alloc: Global, left: &Sorted, right: &Sorted) -> Result<Option<Subst>, NoMemory>
    requires one_sort { HaveOneSortPerNumber (term_in left.now) (term_in right.now) }
    // terms of one signature have no answer exactly where they have no unifier
    ensures none { IfOk result (λ o. (signature : Signature) → IsOf signature (profiled_in left.now)
        → IsOf signature (profiled_in right.now)
        → (o ≡ None) ↔ (¬ HasUnifier (profiled_in left.now) (profiled_in right.now))) }
    // and no terms without an answer have one that keeps sorts
    ensures none_sorted { IfOk result (λ o. IfNone o
        (¬ HasSortedUnifier (profiled_in left.now) (profiled_in right.now))) }
    ensures some { IfOk result (λ o. IfSome o
        (λ subst. IsUnifiedBy (profiled_in left.now) (profiled_in right.now)
        (profiled_pairs subst.pairs.items))) }
{
    if left.sort() != right.sort() {
        return Ok(None);
    }
    if clash(left.term(), right.term()) {
        return Ok(None);
    }
    let mut state = Solving {
        left: left.copy()?,
        right: right.copy()?,
        pairs: Vec::new(alloc),
    };
    loop {
        match demanded_by(&state.left, &state.right)? {
            Demanded::Solved => return Ok(Some(Subst::of(state.pairs))),
            Demanded::Failed => return Ok(None),
            Demanded::Bind(number, value) => state = with_value(alloc, &state, number, value)?,
        }
    }
}
