//! Copies of drafts.

ghost use Rattle.behaviour_tree.specs.BehaviourTerms.{profiles_of};
ghost use Rattle.event_offers.specs.OfferView.{condition_profiles, label_profiles, plain_draft};
ghost use Rattle.std.specs.Prelude.{◌≡◌, IfOk};

use crate::drafts::Draft;
use crate::labels::{condition_copies, label_copy};
use behaviour_tree::copies::term_copies;
use lotos_base::NoMemory;

/// The same draft.
pub fn draft_copy(draft: &Draft) -> Result<Draft, NoMemory>
    ensures same { IfOk result (λ made. plain_draft made ≡ plain_draft draft.now) }
    ensures values { IfOk result
        (λ made. label_profiles made.label ≡ label_profiles draft.now.label) }
    ensures leaves { IfOk result
        (λ made. profiles_of made.leaves.items ≡ profiles_of draft.now.leaves.items) }
    ensures conditions { IfOk result (λ made. condition_profiles made.conditions.items
        ≡ condition_profiles draft.now.conditions.items) }
{
    let alloc = *draft.leaves.allocator();
    let shape = draft.shape.copy()?;
    let label = label_copy(alloc, &draft.label)?;
    let leaves = term_copies(alloc, &draft.leaves)?;
    let conditions = condition_copies(alloc, &draft.conditions)?;
    Ok(Draft {
        shape,
        label,
        leaves,
        conditions,
    })
}
