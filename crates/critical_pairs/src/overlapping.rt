//! Overlaps of two rules at one place.

ghost use Rattle.critical_pairs.specs.Contracted.{IsNumberedBy};
ghost use Rattle.critical_pairs.specs.OverlapPair.{HaveOneSignature, HaveNoOverlap, IsOverOverlap, IsOverlapPair};
ghost use Rattle.critical_pairs.specs.PairView.{overlap_of};
ghost use Rattle.path_order.specs.RuleSides.{sides_of};
ghost use Rattle.sort_terms.specs.SortedView.{profiled_in, term_in};
ghost use Rattle.std.specs.Prelude.{◌≡◌, IfOk, IfNone, IfSome, IsTrue};
ghost use Rattle.lotos_base.specs.Signature.{Signature};

use crate::contracting::contracted;
use crate::overlaps::Overlap;
use lotos_base::NoMemory;
use path_order::Rule;
use sort_terms::{Sorted, Term};
use std::alloc::Global;
use term_match::differences::clash;
use term_match::paths::part_at;
use term_match::{apart, by_appearance, renumbered, subterm, unify};

/// The critical pair of the two rules at the path in the left side of the first one, its variables
/// numbered by first appearance in the peak; or `None` exactly where they have none there, which is
/// where the path leads to no operation, or the part there and the left side of the second rule
/// have no common instance, variables apart. The rules are over one signature. Operations that
/// clash are seen before any memory is taken.
pub fn overlap(
    alloc: Global,
    first: &Rule,
    second: &Rule,
    path: &[u32],
) -> Result<Option<Overlap>, NoMemory>
    requires { HaveOneSignature (sides_of first.now) (sides_of second.now) }
    ensures none { IfOk result (λ o. IfNone o
        (HaveNoOverlap (sides_of first.now) (sides_of second.now) path.now)) }
    ensures some { IfOk result (λ o. IfSome o (λ pair.
        IsOverlapPair (sides_of first.now) (sides_of second.now) path.now
        (overlap_of pair))) }
    ensures is_of { IfOk result (λ o. IfSome o (λ pair. (signature : Signature)
        → IsOverOverlap signature (sides_of first.now) (sides_of second.now)
        (overlap_of pair))) }
{
    if are_apart(first, second, path) {
        return Ok(None);
    }
    let Some(part) = subterm(&first.left, path)? else {
        return Ok(None);
    };
    if let Term::Var { .. } = part.term() {
        return Ok(None);
    }
    let numbers = apart(alloc, first.left.term(), second.left.term())?;
    let second_left = renumbered(&second.left, numbers.as_slice())?;
    let Some(subst) = unify(alloc, &part, &second_left)? else {
        return Ok(None);
    };
    let second_right = renumbered(&second.right, numbers.as_slice())?;
    let pair = contracted(&subst, first, &second_right, path)?;
    Ok(Some(numbered(alloc, &pair)?))
}

// The pair with its variables numbered by first appearance in its peak.
fn numbered(alloc: Global, pair: &Overlap) -> Result<Overlap, NoMemory>
    ensures { IfOk result (λ made. IsNumberedBy (overlap_of pair.now) (overlap_of made)) }
{
    let numbers = by_appearance(alloc, pair.peak.term())?;
    Ok(Overlap {
        peak: renumbered(&pair.peak, numbers.as_slice())?,
        left: renumbered(&pair.left, numbers.as_slice())?,
        right: renumbered(&pair.right, numbers.as_slice())?,
    })
}

// Whether operations of the part at the path and of the left side of the second rule clash.
fn are_apart(first: &Rule, second: &Rule, path: &[u32]) -> bool
    ensures { IsTrue result
        → HaveNoOverlap (sides_of first.now) (sides_of second.now) path.now }
{
    match part_at(first.left.term(), path) {
        None => false,
        Some(part) => clash(part, second.left.term()),
    }
}
