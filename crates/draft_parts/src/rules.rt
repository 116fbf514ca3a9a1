//! What each rule makes of the draft of a part.

ghost use Rattle.behaviour_tree.specs.BehaviourView.{meet_of};
ghost use Rattle.behaviour_tree.specs.MoveView.{label_of};
ghost use Rattle.behaviour_tree.specs.Over.{AreTermsOf};
ghost use Rattle.event_offers.specs.OfferView.{condition_of, label_profiles, plain_draft};
ghost use Rattle.draft_parts.specs.DraftRules.{
  alone_draft,
  guarded_draft,
  hidden_draft,
  relabelled_draft,
  valued_draft,
  draft_within,
};
ghost use Rattle.draft_parts.specs.DraftTerms.{HasTermsOf};
ghost use Rattle.draft_parts.specs.VariantView.{variant_of};
ghost use Rattle.sort_terms.specs.ProfiledTerm.{IsOf};
ghost use Rattle.sort_terms.specs.SortedView.{profiled_in, term_in};
ghost use Rattle.std.specs.Option.{option_map};
ghost use Rattle.std.specs.Prelude.{◌≡◌, IfOk, IfSome, OnOk};
ghost use Rattle.behaviour_semantics.specs.Rule.{hidden_label, moves_alone, synchronises};
ghost use Rattle.behaviour_semantics.specs.Label.{gate_under as gate_made, label_under};
ghost use Rattle.lotos_base.specs.Signature.{Signature};
ghost use Rattle.lotos_base.specs.Substitution.{is_listed};

use crate::variants::Variant;
use behaviour_tree::{Label, Meet, Shape};
use event_offers::Draft;
use lotos_base::NoMemory;
use sort_terms::Sorted;
use std::mem;

/// The draft below a variant of shapes.
pub fn below(draft: Draft, variant: Variant) -> Result<Draft, NoMemory>
    ensures same { IfOk result (λ made. plain_draft made ≡ draft_within (variant_of variant)
        (plain_draft draft)) }
    ensures over { IfOk result (λ made. (signature : Signature)
        → HasTermsOf signature draft → HasTermsOf signature made) }
{
    let shape = variant.over(*draft.leaves.allocator(), draft.shape)?;
    Ok(Draft {
        shape,
        label: draft.label,
        leaves: draft.leaves,
        conditions: draft.conditions,
    })
}

/// Puts a variant of shapes over the draft's shape.
pub fn put_below(draft: &mut Draft, variant: Variant) -> Result<(), NoMemory>
    ensures same { OnOk result (plain_draft draft.new
        ≡ draft_within (variant_of variant) (plain_draft draft.old)) }
    ensures over { OnOk result ((signature : Signature)
        → HasTermsOf signature draft.old → HasTermsOf signature draft.new) }
{
    let alloc = *draft.leaves.allocator();
    let part = mem::replace(&mut draft.shape, Shape::Act);
    draft.shape = variant.over(alloc, part)?;
    Ok(())
}

/// The draft of a side of a parallel that moves alone, or `None` where it may not.
pub fn alone(draft: Draft, meet: &Meet, variant: Variant) -> Result<Option<Draft>, NoMemory>
    ensures same { IfOk result (λ o. option_map plain_draft o
        ≡ alone_draft (meet_of meet.now) (variant_of variant) (plain_draft draft)) }
    ensures over { IfOk result (λ o. IfSome o (λ made. (signature : Signature)
        → HasTermsOf signature draft → HasTermsOf signature made)) }
{
    if !may_move_alone(meet, &draft.label) {
        return Ok(None);
    }
    Ok(Some(below(draft, variant)?))
}

/// Whether a side of a parallel moves alone with the label.
pub fn may_move_alone(meet: &Meet, label: &Label) -> bool
    ensures { result ≡ moves_alone (meet_of meet.now) (label_of label.now) }
{
    match label {
        Label::Inner => true,
        Label::Gate(gate, _) => !meet_at(meet, *gate),
        Label::Exit(_) => false,
    }
}

/// Whether the sides of a parallel synchronise at the gate.
pub fn meet_at(meet: &Meet, gate: u32) -> bool
    ensures { result ≡ synchronises (meet_of meet.now) gate }
{
    match meet {
        Meet::Nothing => false,
        Meet::Everything => true,
        Meet::Gates(gates) => contains(gates.as_slice(), gate),
    }
}

// Whether the gate is in the list.
fn contains(gates: &[u32], gate: u32) -> bool
    ensures { result ≡ is_listed gates.now gate }
{
    for listed in gates {
        if *listed == gate {
            return true;
        }
    }
    false
}

/// The draft under `hide`.
pub fn hidden(draft: Draft, gates: &[u32]) -> Result<Draft, NoMemory>
    ensures same { IfOk result
        (λ made. plain_draft made ≡ hidden_draft gates.now (plain_draft draft)) }
    ensures over { IfOk result (λ made. (signature : Signature)
        → HasTermsOf signature draft → HasTermsOf signature made) }
{
    let shape = Variant::Hidden.over(*draft.leaves.allocator(), draft.shape)?;
    Ok(Draft {
        shape,
        label: hide_label(draft.label, gates),
        leaves: draft.leaves,
        conditions: draft.conditions,
    })
}

/// The label under `hide`.
pub fn hide_label(label: Label, gates: &[u32]) -> Label
    ensures same { label_of result ≡ hidden_label gates.now (label_of label) }
    ensures over { (signature : Signature) → AreTermsOf signature (label_profiles label)
        → AreTermsOf signature (label_profiles result) }
{
    match label {
        Label::Gate(gate, values) => {
            if contains(gates, gate) {
                return Label::Inner;
            }
            Label::Gate(gate, values)
        }
        Label::Inner => Label::Inner,
        Label::Exit(values) => Label::Exit(values),
    }
}

/// The draft under a relabelling, below a variant of shapes.
pub fn relabelled(draft: Draft, pairs: &[(u32, u32)], variant: Variant) -> Result<Draft, NoMemory>
    ensures same { IfOk result (λ made. plain_draft made
        ≡ relabelled_draft (variant_of variant) pairs.now (plain_draft draft)) }
    ensures over { IfOk result (λ made. (signature : Signature)
        → HasTermsOf signature draft → HasTermsOf signature made) }
{
    let shape = variant.over(*draft.leaves.allocator(), draft.shape)?;
    Ok(Draft {
        shape,
        label: relabel(draft.label, pairs),
        leaves: draft.leaves,
        conditions: draft.conditions,
    })
}

/// The label with its gate relabelled.
pub fn relabel(label: Label, pairs: &[(u32, u32)]) -> Label
    ensures same { label_of result ≡ label_under pairs.now (label_of label) }
    ensures profiles { label_profiles result ≡ label_profiles label }
{
    match label {
        Label::Gate(gate, values) => Label::Gate(gate_under(pairs, gate), values),
        Label::Inner => Label::Inner,
        Label::Exit(values) => Label::Exit(values),
    }
}

/// The gate that the relabelling gives for a gate.
pub fn gate_under(pairs: &[(u32, u32)], gate: u32) -> u32
    ensures { result ≡ gate_made pairs.now gate }
{
    for (formal, actual) in pairs {
        if *formal == gate {
            return *actual;
        }
    }
    gate
}

/// The draft below a guard, whose test comes before the conditions.
pub fn guarded(draft: Draft, left: Sorted, right: Sorted) -> Result<Draft, NoMemory>
    ensures same { IfOk result (λ made. plain_draft made
        ≡ guarded_draft (condition_of (left, right)) (plain_draft draft)) }
    ensures over { IfOk result (λ made. (signature : Signature)
        → IsOf signature (profiled_in left) → IsOf signature (profiled_in right)
        → HasTermsOf signature draft → HasTermsOf signature made) }
{
    let shape = Variant::Guarded.over(*draft.leaves.allocator(), draft.shape)?;
    let mut conditions = draft.conditions;
    conditions.insert(0, (left, right))?;
    Ok(Draft {
        shape,
        label: draft.label,
        leaves: draft.leaves,
        conditions,
    })
}

/// The draft under a value choice, whose leaf comes before those of the part.
pub fn valued(draft: Draft, leaf: Sorted) -> Result<Draft, NoMemory>
    ensures same { IfOk result
        (λ made. plain_draft made ≡ valued_draft (term_in leaf) (plain_draft draft)) }
    ensures over { IfOk result (λ made. (signature : Signature)
        → IsOf signature (profiled_in leaf)
        → HasTermsOf signature draft → HasTermsOf signature made) }
{
    let shape = Variant::Value.over(*draft.leaves.allocator(), draft.shape)?;
    let mut leaves = draft.leaves;
    leaves.insert(0, leaf)?;
    Ok(Draft {
        shape,
        label: draft.label,
        leaves,
        conditions: draft.conditions,
    })
}
