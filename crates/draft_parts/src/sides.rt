//! Both sides of a parallel together.

ghost use Rattle.behaviour_semantics.specs.WellFormed.{Every};
ghost use Rattle.behaviour_tree.specs.BehaviourView.{meet_of};
ghost use Rattle.draft_parts.specs.Lists.{both_lists, plain_drafts};
ghost use Rattle.draft_parts.specs.MetDrafts.{AreSameFor, both_with, is_met_by, IsSameFor, met_of};
ghost use Rattle.event_offers.specs.OfferView.{plain_draft};
ghost use Rattle.event_offers.specs.Renaming.{renaming_of};
ghost use Rattle.draft_parts.specs.DraftTerms.{HasTermsOf};
ghost use Rattle.std.specs.Prelude.{◌≡◌, ◌∷◌, [], ◌++◌, false, IfOk, map, OnOk};
ghost use Rattle.lotos_base.specs.Signature.{Signature};

use crate::copies::copied;
use crate::meeting::{may_meet, together};
use behaviour_tree::{Label, Meet, Shape};
use event_offers::Draft;
use event_offers::renaming::Renaming;
use lotos_base::NoMemory;
use std::mem;

/// The drafts of both sides of a parallel, those of the first left draft before those of the next.
/// The drafts of the right side come with the numbers of their variables from `first` on raised by
/// the number of the left leaves. A draft is copied but where it is used last.
pub fn both_sides(
    lefts: Vec<Draft>,
    rights: Vec<Draft>,
    meet: &Meet,
    first: u64,
) -> Result<Vec<Draft>, NoMemory>
    ensures same { IfOk result (λ made. (signature : Signature)
        → Every (HasTermsOf signature) lefts.items → Every (HasTermsOf signature) rights.items
        → plain_drafts made.items ≡ both_lists signature (meet_of meet.now) first
        (plain_drafts lefts.items) (plain_drafts rights.items)) }
    ensures over { IfOk result (λ made. (signature : Signature)
        → Every (HasTermsOf signature) lefts.items → Every (HasTermsOf signature) rights.items
        → Every (HasTermsOf signature) made.items) }
{
    let mut made = Vec::new(*lefts.allocator());
    let mut rest = lefts;
    let mut others = rights;
    rest.reverse();
    while let Some(left) = rest.pop() {
        let renaming = Renaming::Raised {
            from: first,
            by: left.leaves.len() as u64,
        };
        let met = met_rights(&mut others, &left.label, &rest, meet)?;
        push_met(&mut made, left, met, &renaming)?;
    }
    Ok(made)
}

// The right drafts that meet a label. The later left drafts meet the same among those that are
// kept, and what no later one meets is taken.
fn met_rights(
    rights: &mut Vec<Draft>,
    label: &Label,
    later: &Vec<Draft>,
    meet: &Meet,
) -> Result<Vec<Draft>, NoMemory>
    ensures same { IfOk result (λ made. plain_drafts made.items
        ≡ met_of (meet_of meet.now) label.now rights.old.items) }
    ensures over { IfOk result (λ made. (signature : Signature)
        → Every (HasTermsOf signature) rights.old.items
        → Every (HasTermsOf signature) made.items) }
    ensures kept { OnOk result (Every (AreSameFor (meet_of meet.now) rights.old.items
        rights.new.items) later.now.items) }
    ensures kept_over { OnOk result ((signature : Signature)
        → Every (HasTermsOf signature) rights.old.items
        → Every (HasTermsOf signature) rights.new.items) }
{
    let mut made = Vec::new(*rights.allocator());
    for i in 0..rights.len() {
        if may_meet(meet, label, &rights[i].label) {
            let right = taken(&mut rights[i], later, meet)?;
            made.push(right)?;
        }
    }
    Ok(made)
}

// The right draft itself, if no later left draft meets it, and otherwise a copy.
fn taken(right: &mut Draft, later: &Vec<Draft>, meet: &Meet) -> Result<Draft, NoMemory>
    ensures same { IfOk result (λ made. plain_draft made ≡ plain_draft right.old) }
    ensures over { IfOk result (λ made. (signature : Signature)
        → HasTermsOf signature right.old → HasTermsOf signature made) }
    ensures kept { Every (IsSameFor (meet_of meet.now) right.old right.new) later.now.items }
    ensures kept_over { (signature : Signature)
        → HasTermsOf signature right.old → HasTermsOf signature right.new }
{
    if is_needed(later, &right.label, meet) {
        let copy = copied(right)?;
        return Ok(copy);
    }
    let alloc = *right.leaves.allocator();
    let nothing = Draft {
        shape: Shape::Inner,
        label: Label::Inner,
        leaves: Vec::new(alloc),
        conditions: Vec::new(alloc),
    };
    Ok(mem::replace(right, nothing))
}

// Whether a left draft meets the label of a right one. The last one, which comes next, is looked at
// first.
fn is_needed(lefts: &Vec<Draft>, label: &Label, meet: &Meet) -> bool
    ensures { result ≡ false
        → is_met_by (meet_of meet.now) label.now lefts.now.items ≡ false }
{
    let mut i = lefts.len();
    while i > 0 {
        i -= 1;
        if may_meet(meet, &lefts[i].label, label) {
            return true;
        }
    }
    false
}

// The drafts with those that the left draft makes with each of the right ones. It is copied but for
// the last.
fn push_met(
    drafts: &mut Vec<Draft>,
    left: Draft,
    rights: Vec<Draft>,
    renaming: &Renaming,
) -> Result<(), NoMemory>
    ensures same { OnOk result (plain_drafts drafts.new.items ≡ plain_drafts drafts.old.items
        ++ map (both_with (plain_draft left) (renaming_of renaming.now))
        (plain_drafts rights.items)) }
    ensures over { OnOk result ((signature : Signature) → HasTermsOf signature left
        → Every (HasTermsOf signature) rights.items
        → Every (HasTermsOf signature) drafts.old.items
        → Every (HasTermsOf signature) drafts.new.items) }
{
    let mut rest = rights;
    match rest.pop() {
        None => Ok(()),
        Some(last) => {
            push_copies(drafts, &left, rest, renaming)?;
            push_both(drafts, left, last, renaming)?;
            Ok(())
        }
    }
}

// The drafts with those that copies of the left draft make with each of the right ones.
fn push_copies(
    drafts: &mut Vec<Draft>,
    left: &Draft,
    rights: Vec<Draft>,
    renaming: &Renaming,
) -> Result<(), NoMemory>
    ensures same { OnOk result (plain_drafts drafts.new.items ≡ plain_drafts drafts.old.items
        ++ map (both_with (plain_draft left.now) (renaming_of renaming.now))
        (plain_drafts rights.items)) }
    ensures over { OnOk result ((signature : Signature) → HasTermsOf signature left.now
        → Every (HasTermsOf signature) rights.items
        → Every (HasTermsOf signature) drafts.old.items
        → Every (HasTermsOf signature) drafts.new.items) }
{
    for right in rights {
        let copy = copied(left)?;
        push_both(drafts, copy, right, renaming)?;
    }
    Ok(())
}

// The drafts with the one that a left draft makes with a right one.
fn push_both(
    drafts: &mut Vec<Draft>,
    left: Draft,
    right: Draft,
    renaming: &Renaming,
) -> Result<(), NoMemory>
    ensures same { OnOk result (plain_drafts drafts.new.items ≡ plain_drafts drafts.old.items
        ++ both_with (plain_draft left) (renaming_of renaming.now) (plain_draft right) ∷ []) }
    ensures over { OnOk result ((signature : Signature) → HasTermsOf signature left
        → HasTermsOf signature right → Every (HasTermsOf signature) drafts.old.items
        → Every (HasTermsOf signature) drafts.new.items) }
{
    let made = together(left, right, renaming)?;
    drafts.push(made)?;
    Ok(())
}
