//! The terms of a draft in canonical form, and a term put for a variable in them.

ghost use Rattle.behaviour_semantics.specs.Solving.{differing, label_in, test_in, tidied};
ghost use Rattle.behaviour_tree.specs.BehaviourTerms.{profiles_of};
ghost use Rattle.behaviour_tree.specs.BehaviourView.{terms_of};
ghost use Rattle.behaviour_tree.specs.MoveView.{label_of};
ghost use Rattle.behaviour_tree.specs.Over.{AreTermsOf};
ghost use Rattle.draft_solving.specs.Changing.{
  changed_by,
  have_other_sides,
  IsReadyForPut,
  IsReadyPair,
  IsVariable,
  put_of,
  PutsSort,
};
ghost use Rattle.event_offers.specs.Keeping.{KeepsData};
ghost use Rattle.event_offers.specs.OfferView.{
  condition_of,
  condition_profiles,
  condition_sides,
  conditions_of,
  label_profiles,
  plain_draft,
};
ghost use Rattle.event_offers.specs.Offers.{AreConditionsOf, IsConditionOf};
ghost use Rattle.sort_terms.specs.ProfiledTerm.{IsOf};
ghost use Rattle.sort_terms.specs.SortedView.{profiled_in, term_in};
ghost use Rattle.std.specs.Prelude.{◌≡◌, IfOk, IsTrue, OnOk, map};
ghost use Rattle.lotos_base.specs.Signature.{Signature};
ghost use Rattle.lotos_base.specs.Substitution.{substituted};

use behaviour_tree::Label;
use event_offers::drafts::Draft;
use event_offers::valued::Values;
use lotos_base::NoMemory;
use sort_terms::{Deciding, Sorted, Term};
use term_match::occurrence::occurs;

// Changes the term where it stands to its canonical form. A variable is not touched.
fn settle<D: Deciding>(term: &mut Sorted, decider: &mut D) -> Result<(), NoMemory>
    requires { IsOf (D.known_data decider.old).signature (profiled_in term.old) }
    ensures same { OnOk result (term_in term.new ≡ D.canon decider.old (term_in term.old)) }
    ensures is_of { OnOk result
        (IsOf (D.known_data decider.old).signature (profiled_in term.new)) }
    ensures same_known { KeepsData D.known_data D.canon decider.old decider.new }
{
    if is_variable(term) {
        return Ok(());
    }
    let made = decider.normal(term)?;
    *term = made;
    Ok(())
}

/// Whether the term is a variable.
pub fn is_variable(term: &Sorted) -> bool
    ensures { IsTrue result → IsVariable (term_in term.now) }
{
    match term.term() {
        Term::Var { .. } => true,
        Term::Node { .. } => false,
    }
}

// Puts a term for a variable into the term where it stands, which is then changed to its canonical
// form. A term without the variable is in canonical form already, and is not touched.
fn put_in<D: Deciding>(
    term: &mut Sorted,
    found: &(u64, Sorted),
    decider: &mut D,
) -> Result<(), NoMemory>
    requires { IsReadyForPut (D.known_data decider.old).signature (D.canon decider.old) found.now
        (profiled_in term.old) }
    ensures same { OnOk result
        (term_in term.new ≡ changed_by (D.canon decider.old) found.now (term_in term.old)) }
    ensures is_of { OnOk result
        (IsOf (D.known_data decider.old).signature (profiled_in term.new)) }
    ensures same_known { KeepsData D.known_data D.canon decider.old decider.new }
{
    if !occurs(found.0, term.term()) {
        return Ok(());
    }
    let mut made = put_one(term, found)?;
    settle(&mut made, decider)?;
    *term = made;
    Ok(())
}

// The term with another put for a variable.
fn put_one(term: &Sorted, found: &(u64, Sorted)) -> Result<Sorted, NoMemory>
    requires { PutsSort found.now (profiled_in term.now) }
    ensures same { IfOk result
        (λ t. term_in t ≡ substituted (put_of found.now) (term_in term.now)) }
    ensures is_of { IfOk result (λ t. (signature : Signature)
        → IsOf signature (profiled_in term.now)
        → IsOf signature (profiled_in found.now.1) → IsOf signature (profiled_in t)) }
{
    Values::One(found.0, &found.1).put_into(term)
}

/// Puts a term for a variable into both sides of a condition where they stand.
pub fn put_in_sides<D: Deciding>(
    condition: &mut (Sorted, Sorted),
    found: &(u64, Sorted),
    decider: &mut D,
) -> Result<(), NoMemory>
    requires { IsReadyPair (D.known_data decider.old).signature (D.canon decider.old) found.now
        (condition_sides condition.old) }
    ensures same { OnOk result (condition_of condition.new
        ≡ test_in (changed_by (D.canon decider.old) found.now) (condition_of condition.old)) }
    ensures is_of { OnOk result
        (IsConditionOf (D.known_data decider.old).signature (condition_sides condition.new)) }
    ensures same_known { KeepsData D.known_data D.canon decider.old decider.new }
{
    put_in(&mut condition.0, found, decider)?;
    put_in(&mut condition.1, found, decider)
}

// Changes each term of a list to its canonical form.
fn canonical_terms<D: Deciding>(
    terms: Vec<Sorted>,
    decider: &mut D,
) -> Result<Vec<Sorted>, NoMemory>
    requires { AreTermsOf (D.known_data decider.old).signature (profiles_of terms.items) }
    ensures same { IfOk result (λ made. terms_of made.items
        ≡ map (D.canon decider.old) (terms_of terms.items)) }
    ensures is_of { IfOk result
        (λ made. AreTermsOf (D.known_data decider.old).signature (profiles_of made.items)) }
    ensures same_known { KeepsData D.known_data D.canon decider.old decider.new }
{
    let mut made = terms;
    for i in 0..made.len() {
        settle(&mut made[i], decider)?;
    }
    Ok(made)
}

// The same of the values of a label.
fn canonical_label<D: Deciding>(label: Label, decider: &mut D) -> Result<Label, NoMemory>
    requires { AreTermsOf (D.known_data decider.old).signature (label_profiles label) }
    ensures same { IfOk result (λ made. label_of made
        ≡ label_in (D.canon decider.old) (label_of label)) }
    ensures is_of { IfOk result
        (λ made. AreTermsOf (D.known_data decider.old).signature (label_profiles made)) }
    ensures same_known { KeepsData D.known_data D.canon decider.old decider.new }
{
    match label {
        Label::Inner => Ok(Label::Inner),
        Label::Gate(gate, values) => Ok(Label::Gate(gate, canonical_terms(values, decider)?)),
        Label::Exit(values) => Ok(Label::Exit(canonical_terms(values, decider)?)),
    }
}

// The same of the sides of conditions, of which those with identical sides are dropped.
fn canonical_conditions<D: Deciding>(
    conditions: Vec<(Sorted, Sorted)>,
    decider: &mut D,
) -> Result<Vec<(Sorted, Sorted)>, NoMemory>
    requires { AreConditionsOf (D.known_data decider.old).signature
        (condition_profiles conditions.items) }
    ensures same { IfOk result (λ made. conditions_of made.items
        ≡ differing (map (test_in (D.canon decider.old)) (conditions_of conditions.items))) }
    ensures is_of { IfOk result (λ made. AreConditionsOf (D.known_data decider.old).signature
        (condition_profiles made.items)) }
    ensures same_known { KeepsData D.known_data D.canon decider.old decider.new }
{
    let mut made = conditions;
    for i in 0..made.len() {
        settle_sides(&mut made[i], decider)?;
    }
    drop_settled(&mut made);
    Ok(made)
}

// Changes both sides of a condition where they stand.
fn settle_sides<D: Deciding>(
    condition: &mut (Sorted, Sorted),
    decider: &mut D,
) -> Result<(), NoMemory>
    requires { IsConditionOf (D.known_data decider.old).signature (condition_sides condition.old) }
    ensures same { OnOk result (condition_of condition.new
        ≡ test_in (D.canon decider.old) (condition_of condition.old)) }
    ensures is_of { OnOk result
        (IsConditionOf (D.known_data decider.old).signature (condition_sides condition.new)) }
    ensures same_known { KeepsData D.known_data D.canon decider.old decider.new }
{
    settle(&mut condition.0, decider)?;
    settle(&mut condition.1, decider)
}

/// Drops the conditions with identical sides. Those before the first of them stay where they are.
pub fn drop_settled(conditions: &mut Vec<(Sorted, Sorted)>)
    ensures same { conditions_of conditions.new.items
        ≡ differing (conditions_of conditions.old.items) }
    ensures is_of { (signature : Signature)
        → AreConditionsOf signature (condition_profiles conditions.old.items)
        → AreConditionsOf signature (condition_profiles conditions.new.items) }
{
    conditions.retain(|condition| differ(condition));
}

// Whether the sides of the condition differ.
fn differ(condition: &(Sorted, Sorted)) -> bool
    ensures { result ≡ have_other_sides condition.now }
{
    !condition.0.same(&condition.1)
}

/// Changes all terms of a draft to their canonical forms, and drops the conditions with identical
/// sides.
pub fn canonical_draft<D: Deciding>(draft: Draft, decider: &mut D) -> Result<Draft, NoMemory>
    requires values { AreTermsOf (D.known_data decider.old).signature (label_profiles draft.label) }
    requires leaves { AreTermsOf (D.known_data decider.old).signature
        (profiles_of draft.leaves.items) }
    requires conditions { AreConditionsOf (D.known_data decider.old).signature
        (condition_profiles draft.conditions.items) }
    ensures same { IfOk result (λ made. plain_draft made
        ≡ tidied (D.canon decider.old) (plain_draft draft)) }
    ensures values { IfOk result
        (λ made. AreTermsOf (D.known_data decider.old).signature (label_profiles made.label)) }
    ensures leaves { IfOk result
        (λ made. AreTermsOf (D.known_data decider.old).signature (profiles_of made.leaves.items)) }
    ensures conditions { IfOk result (λ made. AreConditionsOf (D.known_data decider.old).signature
        (condition_profiles made.conditions.items)) }
    ensures same_known { KeepsData D.known_data D.canon decider.old decider.new }
{
    let label = canonical_label(draft.label, decider)?;
    let leaves = canonical_terms(draft.leaves, decider)?;
    let conditions = canonical_conditions(draft.conditions, decider)?;
    Ok(Draft {
        shape: draft.shape,
        label,
        leaves,
        conditions,
    })
}
