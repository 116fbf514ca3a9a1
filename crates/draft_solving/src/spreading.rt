//! The terms of a draft in one list: its conditions, and behind them each value of the label and
//! each leaf as a condition between the term and itself, which always holds. So what a replacement
//! changes is one list, and solving treats all terms alike.

ghost use Rattle.behaviour_semantics.specs.Rule.{label_values};
ghost use Rattle.behaviour_semantics.specs.Solving.{label_in, test_in, tidied};
ghost use Rattle.behaviour_tree.specs.BehaviourTerms.{profiles_of};
ghost use Rattle.behaviour_tree.specs.BehaviourView.{terms_of};
ghost use Rattle.behaviour_tree.specs.MoveView.{label_of};
ghost use Rattle.behaviour_tree.specs.Over.{AreTermsOf};
ghost use Rattle.draft_solving.specs.Spreading.{itself, lefts_from, spread_of};
ghost use Rattle.event_offers.specs.OfferView.{
  condition_profiles,
  conditions_of,
  label_profiles,
  plain_draft,
};
ghost use Rattle.event_offers.specs.Offers.{AreConditionsOf};
ghost use Rattle.lotos_base.specs.Signature.{Signature};
ghost use Rattle.lotos_base.specs.Term.{Term};
ghost use Rattle.std.specs.Prelude.{◌≡◌, ◌++◌, IfOk, length, map, OnOk};

use crate::changing::drop_settled;
use behaviour_tree::Label;
use event_offers::drafts::Draft;
use lotos_base::NoMemory;
use sort_terms::Sorted;

/// The conditions, the values and the leaves of the draft in one list.
pub fn spread(draft: &Draft) -> Result<Vec<(Sorted, Sorted)>, NoMemory>
    ensures same { IfOk result
        (λ made. conditions_of made.items ≡ spread_of (plain_draft draft.now)) }
    ensures is_of { IfOk result (λ made. (signature : Signature)
        → AreTermsOf signature (label_profiles draft.now.label)
        → AreTermsOf signature (profiles_of draft.now.leaves.items)
        → AreConditionsOf signature (condition_profiles draft.now.conditions.items)
        → AreConditionsOf signature (condition_profiles made.items)) }
{
    let mut made = Vec::new(*draft.leaves.allocator());
    spread_conditions(&draft.conditions, &mut made)?;
    spread_values(&draft.label, &mut made)?;
    spread_terms(&draft.leaves, &mut made)?;
    Ok(made)
}

// Puts copies of the conditions behind the list.
fn spread_conditions(
    conditions: &Vec<(Sorted, Sorted)>,
    made: &mut Vec<(Sorted, Sorted)>,
) -> Result<(), NoMemory>
    ensures same { OnOk result (conditions_of made.new.items
        ≡ conditions_of made.old.items ++ conditions_of conditions.now.items) }
    ensures is_of { OnOk result ((signature : Signature)
        → AreConditionsOf signature (condition_profiles made.old.items)
        → AreConditionsOf signature (condition_profiles conditions.now.items)
        → AreConditionsOf signature (condition_profiles made.new.items)) }
{
    for condition in conditions {
        let left = condition.0.copy()?;
        let right = condition.1.copy()?;
        made.push((left, right))?;
    }
    Ok(())
}

// Puts each value of the label with itself behind the list.
fn spread_values(label: &Label, made: &mut Vec<(Sorted, Sorted)>) -> Result<(), NoMemory>
    ensures same { OnOk result (conditions_of made.new.items
        ≡ conditions_of made.old.items ++ map itself (label_values (label_of label.now))) }
    ensures is_of { OnOk result ((signature : Signature)
        → AreConditionsOf signature (condition_profiles made.old.items)
        → AreTermsOf signature (label_profiles label.now)
        → AreConditionsOf signature (condition_profiles made.new.items)) }
{
    match label {
        Label::Inner => Ok(()),
        Label::Gate(_, values) => spread_terms(values, made),
        Label::Exit(values) => spread_terms(values, made),
    }
}

// Puts each term with itself behind the list.
fn spread_terms(terms: &Vec<Sorted>, made: &mut Vec<(Sorted, Sorted)>) -> Result<(), NoMemory>
    ensures same { OnOk result (conditions_of made.new.items
        ≡ conditions_of made.old.items ++ map itself (terms_of terms.now.items)) }
    ensures is_of { OnOk result ((signature : Signature)
        → AreConditionsOf signature (condition_profiles made.old.items)
        → AreTermsOf signature (profiles_of terms.now.items)
        → AreConditionsOf signature (condition_profiles made.new.items)) }
{
    for term in terms {
        let left = term.copy()?;
        let right = term.copy()?;
        made.push((left, right))?;
    }
    Ok(())
}

/// The draft with the terms of a list in which its own were spread, and then changed. Conditions
/// with identical sides are dropped.
pub fn gathered(draft: Draft, spread: Vec<(Sorted, Sorted)>) -> Result<Draft, NoMemory>
    ensures same { IfOk result (λ made. (change : Term → Term)
        → conditions_of spread.items ≡ map (test_in change) (spread_of (plain_draft draft))
        → plain_draft made ≡ tidied change (plain_draft draft)) }
    ensures values { IfOk result (λ made. (signature : Signature)
        → AreConditionsOf signature (condition_profiles spread.items)
        → AreTermsOf signature (label_profiles made.label)) }
    ensures leaves { IfOk result (λ made. (signature : Signature)
        → AreConditionsOf signature (condition_profiles spread.items)
        → AreTermsOf signature (profiles_of made.leaves.items)) }
    ensures conditions { IfOk result (λ made. (signature : Signature)
        → AreConditionsOf signature (condition_profiles spread.items)
        → AreConditionsOf signature (condition_profiles made.conditions.items)) }
{
    let label = gathered_label(draft.label, &spread, draft.conditions.len())?;
    let count = draft.leaves.len();
    let leaves = left_sides(&spread, spread.len().saturating_sub(count), count)?;
    let mut conditions = spread;
    drop_settled(&mut conditions);
    conditions.shrink_to_fit();
    Ok(Draft {
        shape: draft.shape,
        label,
        leaves,
        conditions,
    })
}

// The label with the left sides from a place on for its values.
fn gathered_label(
    label: Label,
    spread: &Vec<(Sorted, Sorted)>,
    first: usize,
) -> Result<Label, NoMemory>
    ensures same { IfOk result (λ made. (change : Term → Term)
        → lefts_from first (length (label_values (label_of label))) (conditions_of spread.now.items)
        ≡ map change (label_values (label_of label))
        → label_of made ≡ label_in change (label_of label)) }
    ensures is_of { IfOk result (λ made. (signature : Signature)
        → AreConditionsOf signature (condition_profiles spread.now.items)
        → AreTermsOf signature (label_profiles made)) }
{
    match label {
        Label::Inner => Ok(Label::Inner),
        Label::Gate(gate, values) => {
            Ok(Label::Gate(gate, left_sides(spread, first, values.len())?))
        }
        Label::Exit(values) => Ok(Label::Exit(left_sides(spread, first, values.len())?)),
    }
}

// So many left sides from a place on, as far as there are some.
fn left_sides(
    spread: &Vec<(Sorted, Sorted)>,
    first: usize,
    count: usize,
) -> Result<Vec<Sorted>, NoMemory>
    ensures same { IfOk result (λ made. terms_of made.items
        ≡ lefts_from first count (conditions_of spread.now.items)) }
    ensures is_of { IfOk result (λ made. (signature : Signature)
        → AreConditionsOf signature (condition_profiles spread.now.items)
        → AreTermsOf signature (profiles_of made.items)) }
{
    let mut made = Vec::with_capacity(*spread.allocator(), count)?;
    for i in first..spread.len() {
        if made.len() >= count {
            return Ok(made);
        }
        made.push(spread[i].0.copy()?)?;
    }
    Ok(made)
}
