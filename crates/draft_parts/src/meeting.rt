//! What both sides of a parallel make together, and what the left side of `>>` makes.

ghost use Rattle.behaviour_semantics.specs.Behaviour.{sorts_of};
ghost use Rattle.behaviour_semantics.specs.Draft.{draft_with};
ghost use Rattle.behaviour_semantics.specs.Join.{both_drafts};
ghost use Rattle.behaviour_semantics.specs.Label.{inner_event};
ghost use Rattle.behaviour_semantics.specs.Shape.{enabled as enabled_shape};
ghost use Rattle.behaviour_tree.specs.BehaviourTerms.{profiles_of};
ghost use Rattle.behaviour_tree.specs.BehaviourView.{meet_of, variables_of};
ghost use Rattle.behaviour_tree.specs.Over.{AreTermsOf};
ghost use Rattle.event_offers.specs.OfferView.{label_profiles, plain_draft};
ghost use Rattle.event_offers.specs.Renaming.{renaming_of};
ghost use Rattle.draft_parts.specs.DraftRules.{enable_draft, ended_draft};
ghost use Rattle.draft_parts.specs.DraftTerms.{HasTermsOf};
ghost use Rattle.draft_parts.specs.Meeting.{may_be_met, meet_told, sorts_told};
ghost use Rattle.std.specs.Option.{option_map};
ghost use Rattle.std.specs.Prelude.{◌≡◌, IfOk, IfSome};
ghost use Rattle.lotos_base.specs.Signature.{Signature};

use crate::rules::{below, meet_at};
use crate::variants::Variant;
use behaviour_tree::{Label, Meet};
use event_offers::Draft;
use event_offers::joining::both_taken;
use event_offers::labels::alike;
use event_offers::renaming::Renaming;
use lotos_base::NoMemory;
use sort_terms::{Sorted, Variable};

/// The draft of both sides of a parallel, which are taken, with other numbers for the right
/// variables.
pub fn together(left: Draft, right: Draft, renaming: &Renaming) -> Result<Draft, NoMemory>
    ensures same { IfOk result (λ made. plain_draft made ≡ both_drafts (plain_draft left)
        (draft_with (renaming_of renaming.now) (plain_draft right))) }
    ensures over { IfOk result (λ made. (signature : Signature)
        → HasTermsOf signature left → HasTermsOf signature right
        → HasTermsOf signature made) }
{
    let made = both_taken(left, right, renaming)?;
    Ok(made)
}

/// Whether the labels are those of one event at which the sides of a parallel synchronise.
pub fn may_meet(meet: &Meet, left: &Label, right: &Label) -> bool
    ensures { result ≡ meet_told (meet_of meet.now) left.now right.now }
{
    if !alike(left, right) {
        return false;
    }
    is_met(meet, left)
}

// Whether the sides synchronise with the label.
fn is_met(meet: &Meet, label: &Label) -> bool
    ensures { result ≡ may_be_met (meet_of meet.now) label.now }
{
    match label {
        Label::Gate(gate, _) => meet_at(meet, *gate),
        Label::Exit(_) => true,
        Label::Inner => false,
    }
}

/// The draft of a left side of `>>` that ends with values for these variables or goes on, or `None`
/// where it ends with other values.
pub fn enabled(draft: Draft, variables: &Vec<Variable>) -> Result<Option<Draft>, NoMemory>
    ensures same { IfOk result (λ o. (signature : Signature)
        → AreTermsOf signature (label_profiles draft.label)
        → option_map plain_draft o
        ≡ enable_draft signature (sorts_of (variables_of variables.now.items))
        (plain_draft draft)) }
    ensures over { IfOk result (λ o. IfSome o (λ made. (signature : Signature)
        → HasTermsOf signature draft → HasTermsOf signature made)) }
{
    if let Label::Exit(values) = &draft.label {
        if !have_sorts(values, variables) {
            return Ok(None);
        }
        let made = ended(draft)?;
        return Ok(Some(made));
    }
    let made = below(draft, Variant::Passed)?;
    Ok(Some(made))
}

// The draft of a left side that ended.
fn ended(draft: Draft) -> Result<Draft, NoMemory>
    ensures same { IfOk result (λ made. plain_draft made ≡ ended_draft (plain_draft draft)) }
    ensures over { IfOk result (λ made. (signature : Signature)
        → HasTermsOf signature draft → HasTermsOf signature made) }
{
    let shape = Variant::Enabled.over(*draft.leaves.allocator(), draft.shape)?;
    Ok(Draft {
        shape,
        label: Label::Inner,
        leaves: draft.leaves,
        conditions: draft.conditions,
    })
}

/// Whether the values have the sorts of the variables, one by one, told by the profiles that they
/// carry.
pub fn have_sorts(values: &Vec<Sorted>, variables: &Vec<Variable>) -> bool
    ensures { result ≡ sorts_told (profiles_of values.now.items)
        (sorts_of (variables_of variables.now.items)) }
{
    if values.len() != variables.len() {
        return false;
    }
    for i in 0..values.len() {
        if values[i].sort() != variables[i].sort {
            return false;
        }
    }
    true
}
