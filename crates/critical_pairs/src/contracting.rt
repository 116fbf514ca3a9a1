//! What two rules make of an overlap, before the variables are numbered.

ghost use Rattle.critical_pairs.specs.Contracted.{IsReplacedAt};
ghost use Rattle.sort_terms.specs.SortedView.{profiled_in, term_in};
ghost use Rattle.std.specs.Prelude.{◌≡◌, IfOk, Some};
ghost use Rattle.term_match.specs.ProfiledInstance.{profiled_instance};
ghost use Rattle.term_match.specs.ProfiledPath.{profiled_put_at};
ghost use Rattle.term_match.specs.SubstView.{profiled_substitution_of};
ghost use Rattle.term_match.specs.Solving.{IsPutSorted};

use crate::overlaps::Overlap;
use lotos_base::NoMemory;
use path_order::Rule;
use sort_terms::Sorted;
use term_match::{Subst, apply, put_at};

/// The instances of the two sides of the first rule, and the first of them with the instance of the
/// second rule's right side at the path.
pub fn contracted(
    subst: &Subst,
    first: &Rule,
    second_right: &Sorted,
    path: &[u32],
) -> Result<Overlap, NoMemory>
    requires left { IsPutSorted (profiled_substitution_of subst.now) (term_in first.now.left) }
    requires right { IsPutSorted (profiled_substitution_of subst.now)
        (term_in first.now.right) }
    requires second { IsPutSorted (profiled_substitution_of subst.now) (term_in second_right.now) }
    requires place { IsReplacedAt path.now (profiled_substitution_of subst.now)
        (profiled_in second_right.now) (profiled_in first.now.left) }
    ensures peak { IfOk result (λ pair. profiled_in pair.peak
        ≡ profiled_instance (profiled_substitution_of subst.now) (profiled_in first.now.left)) }
    ensures left { IfOk result (λ pair. profiled_in pair.left
        ≡ profiled_instance (profiled_substitution_of subst.now) (profiled_in first.now.right)) }
    ensures right { IfOk result (λ pair. profiled_put_at path.now
        (profiled_instance (profiled_substitution_of subst.now) (profiled_in second_right.now))
        (profiled_instance (profiled_substitution_of subst.now) (profiled_in first.now.left))
        ≡ Some (profiled_in pair.right)) }
{
    let peak = apply(subst, &first.left)?;
    let left = apply(subst, &first.right)?;
    let inner = apply(subst, second_right)?;
    match put_at(&peak, path, &inner)? {
        Some(right) => Ok(Overlap { peak, left, right }),
        None => unreachable!(),
    }
}
