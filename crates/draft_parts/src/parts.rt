//! Lists of drafts: one alone, copies, and those of a parallel.

ghost use Rattle.behaviour_semantics.specs.WellFormed.{Every};
ghost use Rattle.behaviour_tree.specs.BehaviourView.{meet_of};
ghost use Rattle.draft_parts.specs.Lists.{plain_drafts};
ghost use Rattle.event_offers.specs.OfferView.{plain_draft};
ghost use Rattle.draft_parts.specs.HasDrafts.{beside_drafts, either_drafts};
ghost use Rattle.draft_parts.specs.DraftTerms.{HasTermsOf};
ghost use Rattle.draft_parts.specs.Made.{AreThese, draft_of_inner};
ghost use Rattle.std.specs.Prelude.{◌≡◌, ◌∷◌, ◌++◌, [], IfOk};
ghost use Rattle.lotos_base.specs.Signature.{Signature};

use crate::copies::copied;
use crate::{Rule, Variant, both_sides, parted};
use behaviour_tree::{Label, Meet, Shape};
use event_offers::Draft;
use event_offers::lists::appended;
use lotos_base::NoMemory;
use std::alloc::Global;

/// The list of one draft.
pub fn one(alloc: Global, draft: Draft) -> Result<Vec<Draft>, NoMemory>
    ensures { IfOk result (λ made. made.items ≡ draft ∷ []) }
{
    let mut drafts = Vec::new(alloc);
    drafts.push(draft)?;
    Ok(drafts)
}

/// The draft of `i`.
pub fn inner_draft(alloc: Global) -> Draft
    ensures same { plain_draft result ≡ draft_of_inner }
    ensures over { (signature : Signature) → HasTermsOf signature result }
{
    Draft {
        shape: Shape::Inner,
        label: Label::Inner,
        leaves: Vec::new(alloc),
        conditions: Vec::new(alloc),
    }
}

/// The same drafts.
pub fn draft_copies(alloc: Global, drafts: &Vec<Draft>) -> Result<Vec<Draft>, NoMemory>
    ensures same { IfOk result
        (λ made. plain_drafts made.items ≡ plain_drafts drafts.now.items) }
    ensures over { IfOk result (λ made. (signature : Signature)
        → Every (HasTermsOf signature) drafts.now.items
        → Every (HasTermsOf signature) made.items) }
{
    let mut made = Vec::with_capacity(alloc, drafts.len())?;
    for draft in drafts {
        made.push(copied(draft)?)?;
    }
    Ok(made)
}

/// The drafts of a choice or of a disabling: those of the left side and then those of the right.
pub fn either(lefts: Vec<Draft>, rights: Vec<Draft>) -> Result<Vec<Draft>, NoMemory>
    ensures { IfOk result (λ made. (signature : Signature)
        → Every (HasTermsOf signature) lefts.items → Every (HasTermsOf signature) rights.items
        → AreThese signature (either_drafts (plain_drafts lefts.items)
        (plain_drafts rights.items)) made.items) }
{
    let first = Rule::Below(Variant::Left).apply_to_all(lefts)?;
    let second = Rule::Below(Variant::Right).apply_to_all(rights)?;
    joined(first, second)
}

// The drafts of the first list, and then those of the second. The shorter list is moved.
fn joined(first: Vec<Draft>, second: Vec<Draft>) -> Result<Vec<Draft>, NoMemory>
    ensures { IfOk result (λ made. made.items ≡ first.items ++ second.items) }
{
    if first.len() >= second.len() {
        return appended(first, second);
    }
    let count = first.len();
    let mut made = appended(second, first)?;
    made.rotate_right(count);
    Ok(made)
}

/// The drafts of a parallel: those of each side alone, and then those of both together.
pub fn beside(
    lefts: Vec<Draft>,
    rights: Vec<Draft>,
    meet: &Meet,
    first: u64,
) -> Result<Vec<Draft>, NoMemory>
    ensures { IfOk result (λ made. (signature : Signature)
        → Every (HasTermsOf signature) lefts.items → Every (HasTermsOf signature) rights.items
        → AreThese signature (beside_drafts signature (meet_of meet.now) first
        (plain_drafts lefts.items) (plain_drafts rights.items)) made.items) }
{
    let left = parted(lefts, meet)?;
    let right = parted(rights, meet)?;
    let both = both_sides(left.meeting, right.meeting, meet, first)?;
    let lefts = Rule::Alone(meet, Variant::Left).apply_to_all(left.alone)?;
    let rights = Rule::Alone(meet, Variant::Right).apply_to_all(right.alone)?;
    joined(joined(lefts, rights)?, both)
}
