//! Labels of shared entries, and what rules make of them.

ghost use Rattle.behaviour_semantics.specs.Join.{meets_with};
ghost use Rattle.behaviour_semantics.specs.Label.{label_under};
ghost use Rattle.behaviour_semantics.specs.Rule.{hidden_label};
ghost use Rattle.behaviour_tree.specs.BehaviourView.{meet_of};
ghost use Rattle.behaviour_tree.specs.MoveView.{label_of};
ghost use Rattle.behaviour_tree.specs.Over.{AreTermsOf};
ghost use Rattle.event_offers.specs.OfferView.{label_profiles};
ghost use Rattle.lotos_base.specs.Signature.{Signature};
ghost use Rattle.std.specs.Prelude.{◌≡◌, IfOk};

use behaviour_tree::boxes::shared;
use behaviour_tree::{Label, Meet};
use event_offers::labels::label_copy;
use lotos_base::NoMemory;
use menu_builder::{hide_label, meet_at, relabel};
use std::alloc::Global;
use std::rc::Rc;

/// Whether the sides of a parallel meet with the label: at a gate of the set, or both ending.
pub fn meets(meet: &Meet, label: &Label) -> bool
    ensures { result ≡ meets_with (meet_of meet.now) (label_of label.now) }
{
    match label {
        Label::Gate(gate, _) => meet_at(meet, *gate),
        Label::Exit(_) => true,
        Label::Inner => false,
    }
}

/// The label under `hide`.
pub fn hidden(alloc: Global, label: &Label, gates: &[u32]) -> Result<Rc<Label>, NoMemory>
    ensures same { IfOk result
        (λ made. label_of made.value ≡ hidden_label gates.now (label_of label.now)) }
    ensures terms { IfOk result (λ made. (signature : Signature)
        → AreTermsOf signature (label_profiles label.now)
        → AreTermsOf signature (label_profiles made.value)) }
{
    let copy = label_copy(alloc, label)?;
    let changed = hide_label(copy, gates);
    let made = shared(alloc, changed)?;
    Ok(made)
}

/// The label with its gate relabelled.
pub fn relabelled(
    alloc: Global,
    label: &Label,
    pairs: &Vec<(u32, u32)>,
) -> Result<Rc<Label>, NoMemory>
    ensures same { IfOk result
        (λ made. label_of made.value ≡ label_under pairs.now.items (label_of label.now)) }
    ensures terms { IfOk result (λ made. (signature : Signature)
        → AreTermsOf signature (label_profiles label.now)
        → AreTermsOf signature (label_profiles made.value)) }
{
    let copy = label_copy(alloc, label)?;
    let changed = relabel(copy, pairs.as_slice());
    let made = shared(alloc, changed)?;
    Ok(made)
}
