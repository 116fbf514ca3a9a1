//! Labels and conditions: copies, and what the labels of two sides are to each other.

ghost use Rattle.behaviour_semantics.specs.Rule.{label_values, pairwise};
ghost use Rattle.behaviour_tree.specs.BehaviourTerms.{profiles_of};
ghost use Rattle.behaviour_tree.specs.BehaviourView.{terms_of};
ghost use Rattle.behaviour_tree.specs.MoveView.{label_of};
ghost use Rattle.event_offers.specs.Joining.{have_like_sorts, like_labels};
ghost use Rattle.event_offers.specs.OfferView.{
  condition_profiles,
  conditions_of,
  label_profiles,
};
ghost use Rattle.std.specs.Prelude.{◌≡◌, IfOk, zip};

use behaviour_tree::Label;
use behaviour_tree::copies::term_copies;
use lotos_base::NoMemory;
use sort_terms::Sorted;
use std::alloc::Global;

/// The same label.
pub fn label_copy(alloc: Global, label: &Label) -> Result<Label, NoMemory>
    ensures same { IfOk result (λ made. label_of made ≡ label_of label.now) }
    ensures profiles { IfOk result (λ made. label_profiles made ≡ label_profiles label.now) }
{
    match label {
        Label::Inner => Ok(Label::Inner),
        Label::Gate(gate, values) => Ok(Label::Gate(*gate, term_copies(alloc, values)?)),
        Label::Exit(values) => Ok(Label::Exit(term_copies(alloc, values)?)),
    }
}

/// The same conditions.
pub fn condition_copies(
    alloc: Global,
    conditions: &Vec<(Sorted, Sorted)>,
) -> Result<Vec<(Sorted, Sorted)>, NoMemory>
    ensures same { IfOk result (λ made. conditions_of made.items
        ≡ conditions_of conditions.now.items) }
    ensures profiles { IfOk result (λ made. condition_profiles made.items
        ≡ condition_profiles conditions.now.items) }
{
    let mut made = Vec::with_capacity(alloc, conditions.len())?;
    for condition in conditions {
        let left = condition.0.copy()?;
        let right = condition.1.copy()?;
        made.push((left, right))?;
    }
    Ok(made)
}

/// The values of a label.
pub fn values(label: &Label) -> &[Sorted]
    ensures same { terms_of result.now ≡ label_values (label_of label.now) }
    ensures profiles { profiles_of result.now ≡ label_profiles label.now }
{
    match label {
        Label::Inner => &[],
        Label::Gate(_, values) => values.as_slice(),
        Label::Exit(values) => values.as_slice(),
    }
}

/// Whether the labels are at one gate or both end, with equally many values of the same sorts.
pub fn alike(left: &Label, right: &Label) -> bool
    ensures { result ≡ like_labels left.now right.now }
{
    match (left, right) {
        (Label::Gate(gate, values), Label::Gate(other, others)) => {
            if *gate != *other {
                return false;
            }
            have_same_sorts(values, others)
        }
        (Label::Exit(values), Label::Exit(others)) => have_same_sorts(values, others),
        _ => false,
    }
}

// Whether there are equally many terms of the same sorts.
fn have_same_sorts(terms: &Vec<Sorted>, others: &Vec<Sorted>) -> bool
    ensures { result ≡ have_like_sorts (profiles_of terms.now.items)
        (profiles_of others.now.items) }
{
    if terms.len() != others.len() {
        return false;
    }
    for i in 0..terms.len() {
        if terms[i].sort() != others[i].sort() {
            return false;
        }
    }
    true
}

/// The equations of two lists of values, pair by pair.
pub fn equations(
    alloc: Global,
    lefts: &[Sorted],
    rights: &[Sorted],
) -> Result<Vec<(Sorted, Sorted)>, NoMemory>
    ensures same { IfOk result (λ made. conditions_of made.items
        ≡ pairwise (terms_of lefts.now) (terms_of rights.now)) }
    ensures profiles { IfOk result (λ made. condition_profiles made.items
        ≡ zip (profiles_of lefts.now) (profiles_of rights.now)) }
{
    let mut made = Vec::with_capacity(alloc, lefts.len())?;
    for i in 0..lefts.len() {
        if i >= rights.len() {
            return Ok(made);
        }
        let left = lefts[i].copy()?;
        let right = rights[i].copy()?;
        made.push((left, right))?;
    }
    Ok(made)
}
